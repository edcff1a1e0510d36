// The pages of the stack that may have a byte that isn't unspecified, by their numbers.
ghost use Rattle.std.specs.Prelude.{◌≡◌, ℕ, ◌<◌, Bool, false, Option, IfSome, IfNone};
ghost use Rattle.mem_pages.specs.Exposed.{lists, size_below, Adds, TakesOut, ListsNoneBelow};

use std::alloc::Global;
use std::collections::BTreeSet;

/// How many pages of 4,096 bytes there are below 2^32.
const PAGES: u32 = 1048576;

/// Numbers of pages. Each from `rest` on counts as listed: one of them wasn't added, for want of memory.
#[derive(Drop)]
pub struct Exposed {
    numbers: BTreeSet<u32>,
    rest: u32,
}

impl Exposed {
    /// No page.
    pub fn none(alloc: Global) -> Exposed
        ensures { (n : ℕ) → n < 1048576 → lists result n ≡ false }
    {
        Exposed {
            numbers: BTreeSet::new(alloc),
            rest: PAGES,
        }
    }

    /// Adds the number of a page.
    pub fn add(&mut self, number: u32)
        ensures { Adds number self.old self.new }
    {
        match self.numbers.insert(number) {
            Ok(_) => (),
            Err(_) => self.rest = self.rest.min(number),
        }
    }

    /// Whether a page is listed.
    #[tactic(auto, unfolding(crate::specs::Exposed::lists), using(std::proofs::lemmas::Bool::Decides::nat_tests))]
    #[inline(always)]
    pub fn has(&self, number: u32) -> bool
        ensures { result ≡ lists self.now number }
    {
        self.numbers.contains(&number) || self.rest <= number
    }

    /// Takes a number out that is below `end`, where there is one.
    pub fn take_below(&mut self, end: u32) -> Option<u32>
        ensures taken { IfSome result (λ n. TakesOut end n self.old self.new) }
        ensures none { IfNone result (ListsNoneBelow end self.old) }
        ensures same { IfNone result (self.new ≡ self.old) }
    {
        if self.rest < end {
            let number = self.rest;
            self.rest += 1;
            return Some(number);
        }
        let first = match self.numbers.first() {
            Some(first) => *first,
            None => return None,
        };
        if end <= first {
            return None;
        }
        self.numbers.pop_first()
    }
}
