// A list of addresses that contracts see as a list.
ghost use Rattle.std.specs.Prelude.{◌≡◌};

use std::marker::Model;

/// A list of addresses. It is made from a `Vec` and gives it back, both without taking memory.
#[derive(Debug, Drop)]
pub struct AddressList {
    addresses: Vec<u32>,
}

impl Model for AddressList {
    ghost use Rattle.std.specs.Prelude.{List, ℕ};

    ghost Value = { List ℕ };

    ghost view = { λ l. l.addresses.items };
}

impl AddressList {
    /// The list of a `Vec`'s addresses.
    pub fn new(addresses: Vec<u32>) -> AddressList
        ensures { result ≡ addresses.items }
    {
        AddressList { addresses }
    }

    /// The addresses, in order.
    pub fn as_slice(&self) -> &[u32]
        ensures { result.now ≡ self.now }
    {
        self.addresses.as_slice()
    }

    /// The addresses, in order, as a `Vec`.
    pub fn into_vec(self) -> Vec<u32>
        ensures { result.items ≡ self }
    {
        self.addresses
    }
}
