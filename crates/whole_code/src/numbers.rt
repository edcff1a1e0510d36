// The numbers of blocks.
ghost use Rattle.std.specs.Prelude.{◌≡◌, ◌+◌, IfOk};

use std::alloc::AllocError;

// The number of a block by its index. A unit of more than 2^32 blocks doesn't fit: its list alone would take over 200 GiB.
pub(crate) fn block_number(index: usize) -> Result<u32, AllocError>
    ensures { IfOk result (λ number. number ≡ index) }
{
    if index > u32::MAX as usize {
        return Err(AllocError);
    }
    Ok(index as u32)
}

// The number of the block that comes so many blocks after another.
pub(crate) fn number_after(first: u32, count: usize) -> Result<u32, AllocError>
    ensures { IfOk result (λ number. number ≡ first + count) }
{
    if count > (u32::MAX - first) as usize {
        return Err(AllocError);
    }
    Ok(first + count as u32)
}
