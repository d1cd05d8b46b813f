use std::mem::size_of;
use value_ops::{Limit, Place, SimpleType};

/// What a jump to a label of a block cuts back to: how much there was when its declarations had been made.
#[derive(Clone, Copy)]
pub struct Mark {
    /// The live cells.
    pub cells: u32,
    /// The calls and copied actuals under way.
    pub depth: u32,
    /// The texts under way.
    pub frames: u32,
}

/// The widths that a WRITE has set by now: one of them at least.
#[derive(Clone, Copy)]
pub enum WidthsSet {
    /// The columns of an INTEGER.
    Columns(i32),
    /// The blanks behind a value that is no string.
    Blanks(i32),
    /// Both.
    Both {
        /// The columns of an INTEGER.
        columns: i32,
        /// The blanks behind a value that is no string.
        blanks: i32,
    },
}

/// What is in scope, or under way. A name goes by its number.
#[derive(Clone, Copy)]
pub enum Entry {
    /// A name, and its cell.
    Name {
        /// Its number.
        name: u32,
        /// The number of its cell.
        cell: u32,
    },
    /// The name of a procedure formal, and its cell.
    ProcedureName {
        /// Its number.
        name: u32,
        /// The number of its cell.
        cell: u32,
    },
    /// A block, with the live cells at its start.
    Block {
        /// The place of its BEGIN.
        place: Place,
        /// The live cells.
        cells: u32,
    },
    /// The end of a block's declarations.
    Declared(Mark),
    /// A turn of a FOR.
    Turn {
        /// The place of FOR.
        place: Place,
        /// The instruction to go on at behind it.
        back: u32,
    },
    /// A call.
    Call {
        /// The head of the procedure among the instructions.
        head: u32,
        /// The place of its name in the call.
        site: Place,
    },
    /// A copied actual.
    Actual {
        /// Its head among the instructions.
        head: u32,
    },
    /// An actual that is evaluated for a call, which no dump shows.
    Aside,
    /// The widths of a WRITE under way, which no dump shows.
    Widths(WidthsSet),
}

/// What a text is done for.
#[derive(Clone, Copy)]
pub enum Purpose {
    /// Its value.
    Value,
    /// The place that it is.
    Place,
}

/// A text under way: a procedure's body or an actual. The text to return to and the text round it go by their frames; the
/// program has none.
#[derive(Clone, Copy)]
pub struct Frame {
    /// The instruction to return to.
    pub back: u32,
    /// The text to return to.
    pub text: Option<u32>,
    /// The text round it.
    pub link: Option<u32>,
    /// How many entries lie below its own.
    pub start: u32,
    /// How many cells lie below its own.
    pub base: u32,
    /// What it is done for.
    pub purpose: Purpose,
    /// The type that its value is made into, where it is.
    pub kind: Option<SimpleType>,
    /// Its head among the instructions.
    pub head: u32,
    /// Whether it counts in the depth: an aside doesn't.
    pub counts: bool,
}

/// Why a frame or an entry is refused.
#[derive(Clone, Copy)]
pub enum Refusal {
    /// A limit is met.
    Limit(Limit),
    /// No room was made for it.
    NoRoom,
}

const _: () = prove!(size_of::<Entry>() == 16);
