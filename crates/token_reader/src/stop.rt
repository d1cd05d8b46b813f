ghost use Rattle.std.specs.Prelude.{◌≡◌};
ghost use Rattle.token_reader.specs.declared.stop.Stop.TheVariants.{Memory};

use std::alloc::{AllocError, AllocFailed};
use value_ops::Place;

/// Why reading stopped, and at which place; on no card where no token is left. It takes six bytes, so that in a `Result` it
/// stands in front of what stands in its place where reading goes on, and neither is cut into pieces to be moved.
#[derive(Drop)]
pub enum Stop {
    /// Memory is wanting.
    Memory,
    /// The first token that is left doesn't go on.
    Unexpected(Place),
    /// The first token that is left begins nesting beyond the limit.
    TooDeep(Place),
}

impl From<AllocError> for Stop {
    ghost from_gives = { λ _ e. e ≡ Memory };

    fn from(_error: AllocError) -> Stop {
        Stop::Memory
    }
}

impl<T: Drop> From<AllocFailed<T>> for Stop {
    ghost from_gives = { λ _ e. e ≡ Memory };

    fn from(_error: AllocFailed<T>) -> Stop {
        Stop::Memory
    }
}
