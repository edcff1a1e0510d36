// What may be done with a segment's pages.
ghost use Rattle.std.specs.Prelude.{⊤, [], ◌∷◌, codes};

use bitflags::{Flag, Flags, bitflag_items};

/// A set of permissions: X (PF_X) is 1, W (PF_W) is 2, R (PF_R) is 4 (gABI, "Segment Permissions").
#[derive(Clone, Copy, PartialEq, Eq, Debug)]
pub struct Perm(pub u32);

bitflag_items! {
    impl Perm: u32 {
        const X = 1;
        const W = 2;
        const R = 4;
    }
}

impl Flags for Perm {
    type Bits = u32;

    ghost exact = { ⊤ };

    ghost table = { (codes "X", 1) ∷ (codes "W", 2) ∷ (codes "R", 4) ∷ [] };

    ghost set_of = { λ p. p.0 };

    fn flags<'a>() -> &'a [Flag<Perm>] {
        Perm::FLAGS
    }

    fn bits(&self) -> u32 {
        self.0
    }

    fn from_bits_retain(bits: u32) -> Perm {
        Perm(bits)
    }
}
