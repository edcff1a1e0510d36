// Sets of addresses.
ghost use Rattle.std.specs.Prelude.{◌≡◌, ◌↔◌, [], length, Contains, IsTrue, IfOk, OnOk};
ghost use Rattle.std.specs.List.Sorted.{IsStrictlyIncreasing};
ghost use Rattle.code_discovery.specs.Added.{IsInserted};

use std::alloc::{AllocError, Global};
use std::collections::BTreeSet;
use std::marker::Model;

// A set of addresses, seen as the list of them, ascending.
#[derive(Drop)]
pub(crate) struct AddressSet {
    addresses: BTreeSet<u32>,
}

impl Model for AddressSet {
    ghost use Rattle.std.specs.Prelude.{List, ℕ};

    ghost Value = { List ℕ };

    ghost view = { λ s. s.addresses.keys };
}

impl AddressSet {
    pub(crate) fn new(alloc: Global) -> AddressSet
        ensures { result ≡ [] }
    {
        AddressSet {
            addresses: BTreeSet::new(alloc),
        }
    }

    pub(crate) fn len(&self) -> usize
        ensures size { result ≡ length self.now }
        ensures ascending { IsStrictlyIncreasing self.now }
    {
        self.addresses.len()
    }

    pub(crate) fn contains(&self, at: u32) -> bool
        ensures { IsTrue result ↔ Contains self.now at }
    {
        self.addresses.contains(&at)
    }

    pub(crate) fn insert(&mut self, at: u32) -> Result<(), AllocError>
        requires { Contains self.old at → ⊥ }
        ensures { OnOk result (IsInserted self.old at self.new) }
    {
        self.addresses.insert(at)?;
        Ok(())
    }

    pub(crate) fn to_vec(&self, alloc: Global) -> Result<Vec<u32>, AllocError>
        ensures { IfOk result (λ v. v.items ≡ self.now) }
    {
        self.addresses.iter().copied().collect(alloc)
    }
}
