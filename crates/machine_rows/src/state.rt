ghost use Rattle.std.specs.Prelude.{◌≡◌};
ghost use Rattle.machine_rows.specs.Fields.{at_first};

use cell_store::{Store, Wide};
use input_editing::Input;
use output_editing::Printer;
use record_store::Records;
use value_ops::Value;

/// What a run may use.
#[derive(Clone, Copy, Debug, PartialEq, Eq)]
pub struct Limits {
    /// The most steps.
    pub steps: u32,
    /// The most lines, 1 to 500.
    pub lines: u32,
}

/// What the standard variables hold.
#[derive(Clone, Copy)]
pub struct StandardVariables {
    /// I_W, the columns of an INTEGER.
    pub columns: Value,
    /// S_W, the blanks behind a value that is no string.
    pub blanks: Value,
}

impl StandardVariables {
    /// What they hold when a run begins.
    pub fn new() -> StandardVariables
        ensures { result ≡ at_first }
    {
        StandardVariables {
            columns: Value::Integer(14),
            blanks: Value::Integer(2),
        }
    }
}

/// What a run holds, but for the instruction that is next and what is held in a word.
#[derive(Drop)]
pub struct State {
    /// Cells, entries and frames.
    pub store: Store,
    /// The records that were made.
    pub records: Records,
    /// What the standard variables hold.
    pub standard: StandardVariables,
    /// What was printed.
    pub printer: Printer,
    /// How far the data are read.
    pub input: Input,
    /// What is held where a word has no room for it.
    pub wide: Wide,
    /// How many steps were counted.
    pub steps: u32,
    /// How often each statement was begun.
    pub counts: Vec<u32>,
}
