//! Which office a type is of.
ghost use Rattle.std.specs.Prelude.{Bool, false};

use job_queue::QueueBrand;
use std::marker::Brand;

/// Which office the types with this parameter are of, with its queue, and whether it has a board. That it has one is so a
/// fact of its type, which is known after a lock was taken too.
pub trait OfficeBrand: QueueBrand {
    /// Whether the office has a board.
    ghost boarded: { Bool };
}

impl OfficeBrand for Brand {
    ghost boarded = { false };
}
