// Why an image has no found code.
ghost use Rattle.std.specs.Prelude.{◌≡◌};

use std::alloc::AllocError;
use thiserror::Error;

/// Why an image has no found code.
#[derive(Debug, Drop, Error)]
pub enum DiscoverError {
    /// More than 32,768 instructions are found. The number is 32,769.
    #[error("more than 32768 instructions: {0}")]
    TooMuchCode(u32),
    /// Memory ran out.
    #[error("out of memory")]
    Memory,
}

impl From<AllocError> for DiscoverError {
    ghost use Rattle.code_discovery.specs.declared.discover_error.DiscoverError.TheVariants.{Memory};

    ghost from_gives = { λ _ e. e ≡ Memory };

    fn from(_: AllocError) -> Self {
        DiscoverError::Memory
    }
}
