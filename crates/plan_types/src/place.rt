// Instructions and where they stand.
ghost use Rattle.std.specs.Prelude.{◌≡◌};

use std::marker::Model;
use x86_types::Instr;

/// An instruction, the address of its first byte, and how many bytes it has.
#[derive(Clone, Copy, Debug, PartialEq, Eq)]
pub struct Place {
    pub at: u32,
    pub instr: Instr,
    pub len: u8,
}

/// A list of places. It is made from a `Vec` and gives it back, both without taking memory.
#[derive(Debug, Drop)]
pub struct PlaceList {
    places: Vec<Place>,
}

impl Model for PlaceList {
    ghost use Rattle.std.specs.Prelude.{List};
    ghost use Rattle.plan_types.specs.declared.place.Place.{Place};

    ghost Value = { List Place };

    ghost view = { λ l. l.places.items };
}

impl PlaceList {
    /// The list of a `Vec`'s places.
    pub fn new(places: Vec<Place>) -> PlaceList
        ensures { result ≡ places.items }
    {
        PlaceList { places }
    }

    /// The places, in order.
    pub fn as_slice(&self) -> &[Place]
        ensures { result.now ≡ self.now }
    {
        self.places.as_slice()
    }

    /// The places, in order, as a `Vec`.
    pub fn into_vec(self) -> Vec<Place>
        ensures { result.items ≡ self }
    {
        self.places
    }
}
