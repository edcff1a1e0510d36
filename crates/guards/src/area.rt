// The private area.
ghost use Rattle.std.specs.Prelude.{◌≡◌};
ghost use Rattle.guards.specs.Guarding.{literal};
ghost use Rattle.private_memory.specs.PrivateArea.{is_private};

use flag_ir::Term;

const START: u32 = 0x6000_0000;

const END: u32 = 0x7C00_0000;

#[tactic(auto, unfolding(private_memory::specs::PrivateArea::is_private))]
fn is_private(address: u32) -> bool
    ensures { result ≡ is_private address }
{
    START <= address && address < END
}

/// An address that is written out, or 0 in place of one in the area.
pub(crate) fn literal(address: u32) -> Term
    ensures { result ≡ literal address }
{
    if is_private(address) {
        Term::Word(0)
    } else {
        Term::Word(address)
    }
}
