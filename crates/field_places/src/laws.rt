// The law of the definitions.
ghost use Rattle.field_places.specs.FieldPlaceLaws.{FieldPlaceLaws};

/// Its clause says that an instruction makes the same accesses and has the same effect over two namings and two register functions
/// that agree on the places that it uses, and that other registers in its fields are other places that they name.
#[tactic(auto, using(crate::proofs::Effects::field_place_laws))]
pub fn field_place_laws()
    ensures { FieldPlaceLaws }
{}
