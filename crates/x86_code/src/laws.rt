ghost use Rattle.x86_code.specs.CodeLaws.{CodeLaws};

use x86_grammar::front_laws;

/// Does nothing: its clause is the laws of the instructions of an image.
pub fn code_laws()
    ensures { CodeLaws }
{
    front_laws();
}
