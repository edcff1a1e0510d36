// Searches among places and among tables, which ascend.
ghost use Rattle.std.specs.Prelude.{◌≡◌, ◌==◌, ℕ, map, position, slice_get, MatchOption};
ghost use Rattle.std.specs.List.Sorted.{IsStrictlyIncreasing};
ghost use Rattle.plan_types.specs.Ascending.{addresses_of};
ghost use Rattle.plan_types.specs.Body.{HasPlace};

use crate::{Found, Place, Table};

// What is listed by an address.
pub(crate) trait Keyed {
    ghost key: { Self → ℕ };

    // The address.
    fn key(&self) -> u32
        ensures { result ≡ key self.now };
}

impl Keyed for Place {
    ghost key = { λ p. p.at };

    fn key(&self) -> u32 {
        self.at
    }
}

impl Keyed for Table {
    ghost key = { λ t. t.jump };

    fn key(&self) -> u32 {
        self.jump
    }
}

// The index of the item that is listed by the address, by binary search.
pub(crate) fn index_of<T: Keyed>(items: &[T], at: u64) -> Option<usize>
    requires { IsStrictlyIncreasing (map T.key items.now) }
    ensures { result ≡ position (λ x. T.key x == at) items.now }
{
    let mut low = 0;
    let mut high = items.len();
    while low < high {
        let middle = low + (high - low) / 2;
        let here = items[middle].key() as u64;
        if here == at {
            return Some(middle);
        }
        if here < at {
            low = middle + 1;
        } else {
            high = middle;
        }
    }
    None
}

/// The index of the instruction at an address, None exactly where none is found there. It takes no memory, and no more than a
/// search among places that ascend.
pub fn place_at(found: &Found, at: u32) -> Option<usize>
    ensures index { MatchOption result (HasPlace found.now at → ⊥)
        (λ k. slice_get (addresses_of found.now.code) k ≡ Some at) }
    ensures only { (k : ℕ) → slice_get (addresses_of found.now.code) k ≡ Some at → result ≡ Some k }
{
    index_of(found.code.as_slice(), at as u64)
}
