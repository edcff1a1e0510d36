// Numbers that are put behind a list of bytes, the lowest byte first. After an error the list may have grown by some of their bytes.
ghost use Rattle.std.specs.Prelude.{◌≡◌, ◌++◌, OnOk};
ghost use Rattle.std.specs.List.{flat_map};
ghost use Rattle.byte_lists.specs.LittleEndian.{half_bytes, word_bytes, zeros};

use byteorder::{ByteOrder, LittleEndian};
use std::alloc::AllocError;

fn push_half(out: &mut Vec<u8>, n: u16) -> Result<(), AllocError>
    ensures { OnOk result (out.new.items ≡ out.old.items ++ half_bytes n) }
{
    let mut bytes = [0; 2];
    LittleEndian::write_u16(&mut bytes, n);
    out.extend_from_slice(&bytes)
}

/// Puts a number of four bytes (Elf32_Word) behind the list.
pub fn push_word(out: &mut Vec<u8>, n: u32) -> Result<(), AllocError>
    ensures { OnOk result (out.new.items ≡ out.old.items ++ word_bytes n) }
{
    let mut bytes = [0; 4];
    LittleEndian::write_u32(&mut bytes, n);
    out.extend_from_slice(&bytes)
}

/// Puts `count` bytes that are 0 behind the list.
pub fn push_zeros(out: &mut Vec<u8>, count: usize) -> Result<(), AllocError>
    ensures { OnOk result (out.new.items ≡ out.old.items ++ zeros count) }
{
    for _ in 0..count {
        out.push(0)?;
    }
    Ok(())
}

/// Puts numbers of two bytes each (Elf32_Half) behind the list, in order.
pub fn push_halves(out: &mut Vec<u8>, numbers: &[u16]) -> Result<(), AllocError>
    ensures { OnOk result (out.new.items ≡ out.old.items ++ flat_map half_bytes numbers.now) }
{
    for n in numbers {
        push_half(out, *n)?;
    }
    Ok(())
}

/// Puts numbers of four bytes each (Elf32_Word) behind the list, in order.
pub fn push_words(out: &mut Vec<u8>, numbers: &[u32]) -> Result<(), AllocError>
    ensures { OnOk result (out.new.items ≡ out.old.items ++ flat_map word_bytes numbers.now) }
{
    for n in numbers {
        push_word(out, *n)?;
    }
    Ok(())
}
