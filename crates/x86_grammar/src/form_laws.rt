ghost use Rattle.x86_grammar.specs.FormLaws.{FormsAreRight};

/// Each form of an instruction means it, knows its prefixes, and has its reg field, number and
/// operand in range where the instruction's fields are.
pub fn forms_are_right()
    ensures right { FormsAreRight }
{}
