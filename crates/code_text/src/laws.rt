// The laws of the bytes of laid code.
ghost use Rattle.code_text.specs.KeptPlaces.{FormIsSpelled};
ghost use Rattle.code_text.specs.Placing.{TextIsLaid, TextLengths};
ghost use Rattle.code_text.specs.Sizes.{SizeLaws};

use x86_encode::{best_laws, best_lengths};
use x86_grammar::{front_laws, spelled_fields_fit};

/// Where the bytes of laid code stand, whatever stands behind them, the code is laid and begins there; and how long the texts of items
/// are, wherever they stand.
pub fn layout_laws()
    ensures laid { TextIsLaid }
    ensures lengths { TextLengths }
{
    best_laws();
    best_lengths();
    front_laws();
    spelled_fields_fit();
}

/// Its clause says that placed code in form has spellings.
pub fn form_laws()
    ensures { FormIsSpelled }
{
    spelled_fields_fit();
}

/// What holds of the sizes of instructions.
pub(crate) fn size_laws()
    ensures { SizeLaws }
{
    best_laws();
    best_lengths();
    front_laws();
    spelled_fields_fit();
}
