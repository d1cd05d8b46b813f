//! Which queue a type is of.
ghost use Rattle.std.specs.Prelude.{[]};
ghost use Rattle.atomic_table.specs.Seated.{TableId};

use std::marker::Brand;
use std::sync::ledger::Ledger;

/// Which queue, and which ledger of settled amounts, the types with this parameter are of. That a pass is one of a queue
/// is so a fact of their types, which is known after a lock is taken too.
pub trait QueueBrand: Ledger {
    /// The table that the queue stands in.
    ghost table: { TableId };
}

impl QueueBrand for Brand {
    ghost table = { record { words = 0; slots = 0; views_name = 0; atom = 0; block = 0; offset = 0; slot_names = [] } };
}
