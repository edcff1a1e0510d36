ghost use Rattle.x86_grammar.specs.Renamings.{SpellingIsKept};

/// Whether an instruction has a spelling doesn't change with the registers in its fields, but that
/// Esp is no index.
pub fn renaming_laws()
    ensures kept { SpellingIsKept }
{}
