// Where found code stands.
ghost use Rattle.whole_code.specs.Above.{FoundStandsAbove};

use plan_types::found_laws;
use x86_code::code_laws;

/// Does nothing: its clause says that in an image that fits the wide room no instruction is found at address 0.
pub fn above_law()
    ensures { FoundStandsAbove }
{
    found_laws();
    code_laws();
}
