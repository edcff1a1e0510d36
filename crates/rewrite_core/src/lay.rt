// The new code of a page.
ghost use Rattle.std.specs.Prelude.{◌≡◌, ◌≤◌, ◌++◌, length, IfOk, MatchOption, OnOk, All};
ghost use Rattle.std.specs.Option.{unwrap_or};
ghost use Rattle.rewrite_core.specs.Places.{IsLaid, IsLeftOut};
ghost use Rattle.rewrite_core.specs.Placing.{place_at, jump_bytes, with_part, parts_code, parts_size, IsFine};

use crate::placing::{Part, placing_of};
use byte_lists::push_word;
use std::alloc::{AllocError, Global};
use x86_grammar::front_laws;

/// The new place of a place, or 0 where it has none.
fn new_place(places: &[Option<u32>], at: usize) -> u32
    ensures { result ≡ unwrap_or (place_at places.now at) 0 }
{
    match places.get(at) {
        Some(Some(place)) => *place,
        _ => 0,
    }
}

/// E9 rel32, to a place of the new code.
fn push_jump(code: &mut Vec<u8>, to: u32) -> Result<(), AllocError>
    requires { length code.old.items ≤ 65536 }
    ensures { OnOk result (code.new.items ≡ code.old.items ++ jump_bytes (length code.old.items) to) }
{
    let after = code.len() as u32 + 5;
    code.push(0xE9)?;
    push_word(code, to.wrapping_sub(after))
}

/// The bytes of a part.
fn push_part(
    code: &mut Vec<u8>,
    page: &[u8],
    places: &[Option<u32>],
    part: Part,
) -> Result<(), AllocError>
    requires small { length code.old.items ≤ 65536 }
    requires fine { IsFine page.now part }
    ensures { OnOk result (code.new.items ≡ with_part page.now places.now code.old.items part) }
{
    match part {
        Part::Kept { from, len } => code.extend_from_slice(&page[from..from + len]),
        Part::Leads(at) => push_jump(code, new_place(places, at)),
        Part::Stops => code.extend_from_slice(&[0x0F, 0x0B]),
    }
}

/// The bytes of the parts, one after another.
fn code_of(
    alloc: Global,
    page: &[u8],
    places: &[Option<u32>],
    parts: &[Part],
) -> Result<Vec<u8>, AllocError>
    requires small { parts_size parts.now ≤ 65536 }
    requires fine { All (IsFine page.now) parts.now }
    ensures { IfOk result (λ code. code.items ≡ parts_code page.now (place_at places.now) 0 parts.now) }
{
    let mut code = Vec::new(alloc);
    for part in parts {
        push_part(&mut code, page, places, *part)?;
    }
    Ok(code)
}

/// The new code of a page, or nothing where a run can reach a place that isn't taken yet.
pub fn lay(alloc: Global, page: &[u8]) -> Result<Option<Vec<u8>>, AllocError>
    requires { length page.now ≡ 4096 }
    ensures laid { IfOk result (λ found. MatchOption found (IsLeftOut page.now) (λ code. IsLaid page.now code.items)) }
{
    front_laws();
    let Some(placing) = placing_of(alloc, page)? else {
        return Ok(None);
    };
    let code = code_of(
        alloc,
        page,
        placing.places.as_slice(),
        placing.parts.as_slice(),
    )?;
    Ok(Some(code))
}
