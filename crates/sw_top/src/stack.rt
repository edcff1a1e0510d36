// The stack that a run begins with.
ghost use Rattle.std.specs.Prelude.{◌≡◌, ◌+◌, ◌-◌, ◌^◌, ◌<◌, ◌≤◌, ◌++◌, min, length, leb, OnOk, IfOk};
ghost use Rattle.std.specs.List.{flat_map};
ghost use Rattle.byte_lists.specs.LittleEndian.{word_bytes};
ghost use Rattle.sw_top.specs.Texts.{texts};
ghost use Rattle.sw_top.specs.Stacks.{strings, pointers, used_size, filled_size, stack_size, greatest_stack, first_esp, start_stack};

use byte_lists::{push_word, push_words, push_zeros};
use std::alloc::{AllocError, Global};

/// The most bytes that the stack may have: 128 KiB.
const GREATEST_SIZE: usize = 131_072;

/// The address behind the stack.
const END: u32 = 0xBFFF_0000;

// How many bytes the strings of the words take, up to the last number.
fn strings_size(words: &[String]) -> usize
    ensures { result ≡ min (length (strings (texts words.now))) (2 ^ 64 - 1) }
{
    let mut size = 0usize;
    for word in words {
        size = size.saturating_add(word.as_str().len()).saturating_add(1);
    }
    size
}

// How many bytes the stack has up to the end of the strings, up to the last number.
fn used_size(words: &[String]) -> usize
    ensures { result ≡ min (used_size (texts words.now)) (2 ^ 64 - 1) }
{
    let vectors = words.len().saturating_add(5).saturating_mul(4);
    vectors.saturating_add(strings_size(words))
}

/// Whether the stack of these words has at most 128 KiB.
pub fn has_stack(words: &[String]) -> bool
    ensures { result ≡ leb (stack_size (texts words.now)) greatest_stack }
{
    used_size(words) <= GREATEST_SIZE
}

// The least multiple of 16 that is at least this number and at least 128.
fn filled_size(size: usize) -> usize
    requires { size ≤ greatest_stack }
    ensures { result ≡ filled_size size }
{
    ((size + 15) / 16 * 16).max(128)
}

/// The address at which the stack of these words begins.
pub fn first_esp(words: &[String]) -> u32
    requires { stack_size (texts words.now) ≤ greatest_stack }
    ensures { result ≡ first_esp (texts words.now) }
{
    END - filled_size(used_size(words)) as u32
}

// Puts a pointer to each string behind the list, where the first stands at that address.
fn push_pointers(out: &mut Vec<u8>, words: &[String], first: u32) -> Result<(), AllocError>
    requires { first + length (strings (texts words.now)) < 2 ^ 32 }
    ensures { OnOk result (out.new.items ≡ out.old.items ++ flat_map word_bytes (pointers first (texts words.now))) }
{
    let mut at = first;
    for word in words {
        push_word(out, at)?;
        at += word.as_str().len() as u32 + 1;
    }
    Ok(())
}

// Puts the strings behind the list.
fn push_strings(out: &mut Vec<u8>, words: &[String]) -> Result<(), AllocError>
    ensures { OnOk result (out.new.items ≡ out.old.items ++ strings (texts words.now)) }
{
    for word in words {
        out.extend_from_slice(word.as_bytes())?;
        out.push(0)?;
    }
    Ok(())
}

/// The bytes of the stack, from `first_esp` upwards.
#[tactic(auto, unfolding(crate::specs::Stacks::start_stack))]
pub fn start_stack(alloc: Global, words: &[String]) -> Result<Vec<u8>, AllocError>
    requires { stack_size (texts words.now) ≤ greatest_stack }
    ensures { IfOk result (λ stack. stack.items ≡ start_stack (texts words.now)) }
{
    let used = used_size(words);
    let count = words.len() as u32;
    let mut stack = Vec::new(alloc);
    push_word(&mut stack, count)?;
    push_pointers(&mut stack, words, first_esp(words) + 4 * (count + 5))?;
    push_words(&mut stack, &[0, 0, 0, 0])?;
    push_strings(&mut stack, words)?;
    push_zeros(&mut stack, filled_size(used) - used)?;
    Ok(stack)
}
