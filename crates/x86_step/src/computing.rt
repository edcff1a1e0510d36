// What each instruction computes, by the operation that it stands for.
ghost use Rattle.std.specs.Prelude.{◌≡◌};
ghost use Rattle.x86_meaning.specs.Computing as spec;
ghost use Rattle.x86_step.specs.Computed.{computation_of, values_of};

use crate::arithmetic::{
    alu_computed, dec_computed, inc_computed, neg_computed, not_computed, test_computed,
};
use crate::choosing::{cmov_computed, jump_computed, set_computed};
use crate::moving::{
    exchange_computed, extend_computed, half_extended, move_computed, scan_computed,
    spread_computed, swap_computed,
};
use crate::outcome::{Computed, Way, goes};
use crate::procedures::{
    call_computed, call_to_computed, jump_to_computed, pop_computed, push_computed, ret_computed,
};
use crate::products::{div_computed, imul_computed, mul_computed};
use crate::shifting::{double_shift_computed, shift_computed};
use crate::strings::{movs_computed, stos_computed};
use crate::values::Values;
use x86_meaning::Stop;
use x86_types::Instr;
use x86_values::{Flags, condition};

/// What an instruction computes of the values that it reads, behind which the next one stands at an address: the values that it
/// writes, the flags and the way; or a stop. Each instruction has its line, so that one that is left out is seen.
#[rattlefmt::skip]
#[tactic(auto, unfolding(x86_meaning::specs::Computing::compute), using(crate::proofs::SizeOfWidth::size_of_width))]
pub(crate) fn compute(
    instr: &Instr,
    next: u32,
    flags: Flags,
    values: Values,
) -> Result<Computed, Stop>
    ensures exact { computation_of result ≡ spec.compute instr.now next flags (values_of values) }
{
    match *instr {
        Instr::Alu { op, width, .. } => alu_computed(op, width.size(), flags, values),
        Instr::Test { width, .. } => test_computed(width.size(), values),
        Instr::Mov { .. } => move_computed(flags, values),
        Instr::Lea { .. } => move_computed(flags, values),
        Instr::Inc { width, .. } => inc_computed(width.size(), flags, values),
        Instr::Dec { width, .. } => dec_computed(width.size(), flags, values),
        Instr::Not { width, .. } => not_computed(width.size(), flags, values),
        Instr::Neg { width, .. } => neg_computed(width.size(), values),
        Instr::Mul { width, .. } => mul_computed(false, width.size(), values),
        Instr::ImulWide { width, .. } => mul_computed(true, width.size(), values),
        Instr::Div { width, .. } => div_computed(false, width.size(), values),
        Instr::Idiv { width, .. } => div_computed(true, width.size(), values),
        Instr::Imul { width, .. } => imul_computed(width.size(), values),
        Instr::ImulBy { width, .. } => imul_computed(width.size(), values),
        Instr::Shift { op, width, .. } => shift_computed(op, width.size(), flags, values),
        Instr::Shld { .. } => double_shift_computed(false, flags, values),
        Instr::Shrd { .. } => double_shift_computed(true, flags, values),
        Instr::Push { .. } => push_computed(flags, values),
        Instr::Pop { .. } => pop_computed(flags, values),
        Instr::Xchg { .. } => exchange_computed(flags, values),
        Instr::Movzx { .. } => move_computed(flags, values),
        Instr::Movsx { wide, width, .. } => extend_computed(wide.size(), width.size(), flags, values),
        Instr::Cmov { cond, width, .. } => cmov_computed(width.size(), condition(cond, flags), flags, values),
        Instr::Setcc { cond, .. } => set_computed(condition(cond, flags), flags),
        Instr::Extend { width } => half_extended(width, flags, values),
        Instr::Spread { width } => spread_computed(width.size(), flags, values),
        Instr::Bsf { width, .. } => scan_computed(false, width.size(), values),
        Instr::Bsr { width, .. } => scan_computed(true, width.size(), values),
        Instr::Bswap { .. } => swap_computed(flags, values),
        Instr::Movs { width, .. } => movs_computed(width.size(), flags, values),
        Instr::Stos { width, .. } => stos_computed(width.size(), flags, values),
        Instr::Jmp { by } => goes(Way::JumpsBy(by), flags),
        Instr::JmpTo { .. } => jump_to_computed(flags, values),
        Instr::CallTo { .. } => call_to_computed(next, flags, values),
        Instr::Jcc { cond, by } => jump_computed(condition(cond, flags), by, flags),
        Instr::Call { by } => call_computed(by, next, flags, values),
        Instr::Ret { drop } => ret_computed(drop, flags, values),
        Instr::Leave => pop_computed(flags, values),
        Instr::Int80 => goes(Way::Calls, flags),
        Instr::Cld => goes(Way::Falls, flags),
        Instr::Nop => goes(Way::Falls, flags),
    }
}
