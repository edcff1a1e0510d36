// Blocks and parts in form.
ghost use Rattle.std.specs.Prelude.{◌≡◌, length};
ghost use Rattle.std.specs.List.{list_all};
ghost use Rattle.unit_form.specs.Fits as spec;

use crate::parts::{exit_fits, leaves_no_frame, op_fits, op_needs_no_frame, size_fits};
use flag_ir::{Block, LocalSlot, Op, Proc};

fn ops_fit(locals: usize, ops: &[Op]) -> bool
    ensures { result ≡ list_all (spec.op_fits locals) ops.now }
{
    ops.iter().all(|op| op_fits(locals, *op))
}

fn block_fits(locals: usize, count: usize, procs: &[Proc], block: &Block) -> bool
    ensures { result ≡ spec.block_fits locals count procs.now block.now }
{
    ops_fit(locals, block.ops.as_slice()) && exit_fits(locals, count, procs, block.exit)
}

#[tactic(auto, using(crate::proofs::Numbered::none_left, crate::proofs::Numbered::numbered_more))]
fn are_numbered(blocks: &[Block]) -> bool
    ensures { result ≡ spec.numbered_from 0 blocks.now }
{
    for (index, block) in blocks.iter().enumerate() {
        if block.number as usize != index {
            return false;
        }
    }
    true
}

fn blocks_fit(locals: usize, count: usize, procs: &[Proc], blocks: &[Block]) -> bool
    ensures { result ≡ list_all (spec.block_fits locals count procs.now) blocks.now }
{
    blocks
        .iter()
        .all(|block| block_fits(locals, count, procs, block))
}

pub(crate) fn part_fits(locals: usize, procs: &[Proc], blocks: &[Block]) -> bool
    ensures { result ≡ spec.part_fits locals procs.now blocks.now }
{
    are_numbered(blocks) && blocks_fit(locals, blocks.len(), procs, blocks)
}

fn locals_fit(locals: &[LocalSlot]) -> bool
    ensures { result ≡ list_all (λ s. spec.size_fits s.size) locals.now }
{
    locals.iter().all(|slot| size_fits(slot.size))
}

fn proc_fits(procs: &[Proc], proc: &Proc) -> bool
    ensures { result ≡ spec.proc_fits procs.now proc.now }
{
    let locals = proc.locals.as_slice();
    locals_fit(locals) && part_fits(locals.len(), procs, proc.blocks.as_slice())
}

pub(crate) fn procs_fit(procs: &[Proc]) -> bool
    ensures { result ≡ list_all (spec.proc_fits procs.now) procs.now }
{
    procs.iter().all(|proc| proc_fits(procs, proc))
}

fn ops_need_no_frame(ops: &[Op]) -> bool
    ensures { result ≡ list_all spec.needs_no_frame ops.now }
{
    ops.iter().all(|op| op_needs_no_frame(*op))
}

fn is_frameless(block: &Block) -> bool
    ensures { result ≡ spec.frameless block.now }
{
    ops_need_no_frame(block.ops.as_slice()) && leaves_no_frame(block.exit)
}

pub(crate) fn are_frameless(blocks: &[Block]) -> bool
    ensures { result ≡ list_all spec.frameless blocks.now }
{
    blocks.iter().all(|block| is_frameless(block))
}
