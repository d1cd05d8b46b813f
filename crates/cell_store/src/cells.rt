ghost use Rattle.std.specs.Prelude.{◌≡◌, ◌≤◌, length, false, Some, is_some, IfSome};
ghost use Rattle.cell_store.specs.Cells.{text_over};
ghost use Rattle.value_ops.specs.Strings.{filled};

use crate::descriptor::Descriptor;
use value_ops::{RecordId, SimpleType, Text};

/// Where a variable stands.
#[derive(Clone, Copy)]
pub enum Variable {
    /// In the cell of this number.
    Cell(u32),
    /// In the field of this number.
    Field(u32),
}

/// A part of a string variable, as a place to assign to.
#[derive(Clone, Copy)]
pub struct Part {
    /// The variable.
    pub variable: Variable,
    /// How many characters the variable has.
    pub length: u16,
    /// Where the part begins, counted from 0.
    pub from: u16,
    /// How many characters the part has.
    pub count: u16,
}

/// A copied actual: a phrase of the caller, to be done where its formal is used.
#[derive(Clone, Copy)]
pub struct Closed {
    /// The head of its text among the instructions.
    pub entry: u32,
    /// The frame of the text in which it stands, none where that is the program.
    pub link: Option<u32>,
    /// Whether it is a variable of its formal's type.
    pub variable: bool,
    /// The type of its formal, none where that has no value.
    pub kind: Option<SimpleType>,
}

impl Closed {
    /// It becomes the same as another, member by member: a processor waits where it reads at once what it wrote bit by bit.
    #[inline(always)]
    fn copy_from(&mut self, other: &Closed)
        ensures { self.new ≡ other.now }
    {
        self.entry = other.entry;
        self.link = other.link;
        self.variable = other.variable;
        self.kind = other.kind;
    }
}

/// A procedure, as a formal has it.
#[derive(Clone, Copy)]
pub struct Procedure {
    /// Its head among the instructions.
    pub head: u32,
    /// The frame of the text round it, none where that is the program.
    pub link: Option<u32>,
}

/// What a cell holds, or what is held, in a machine word. Contracts see what it is by `word_of`.
#[derive(Clone, Copy)]
pub enum Word {
    /// Nothing: a variable has no value yet.
    Nothing,
    /// An INTEGER.
    Integer(i32),
    /// TRUE.
    True,
    /// FALSE.
    False,
    /// BITS.
    Bits(u32),
    /// NULL.
    Null,
    /// A record, told by 16 bits. (All have their number in the same four bytes, so that a word is copied in two parts.)
    Record(u32),
    /// The place of the variable in the cell of this number.
    Cell(u32),
    /// The place of the variable in the field of this number.
    Field(u32),
    /// What a machine word has no room for: it stands beside.
    Wide,
}

impl Word {
    ghost use Rattle.cell_store.specs.Words as words;

    /// A LOGICAL.
    #[inline(always)]
    #[tactic(auto, using(crate::proofs::MachineWords::logical_back, crate::proofs::MachineWords::logical_narrow))]
    pub fn logical(truth: bool) -> Word
        ensures is { result ≡ words.machine_word (words.Logical truth) }
        ensures word { words.word_of result ≡ Some (words.Logical truth) }
        ensures narrow { words.is_wide result ≡ false }
    {
        if truth { Word::True } else { Word::False }
    }

    /// A record, or NULL.
    #[inline(always)]
    pub fn reference(id: Option<RecordId>) -> Word
        ensures is { result ≡ words.machine_word (words.Reference id) }
        ensures word { words.word_of result ≡ Some (words.Reference id) }
        ensures narrow { words.is_wide result ≡ false }
    {
        match id {
            Some(id) => Word::Record(u32::from(id.0)),
            None => Word::Null,
        }
    }

    /// The record that 16 bits of a number tell.
    #[inline(always)]
    pub fn told(number: u32) -> RecordId
        ensures { result ≡ words.told number }
    {
        RecordId((number % 65536) as u16)
    }

    /// Whether what it is stands beside.
    #[inline(always)]
    pub fn is_wide(self) -> bool
        ensures { result ≡ words.is_wide self }
    {
        match self {
            Word::Wide => true,
            _ => false,
        }
    }
}

/// Pairs of bounds, behind which others stand that count for nothing.
#[derive(Clone, Copy)]
pub struct Bounds {
    /// How many there are, at most 8.
    pub count: usize,
    /// The lower and the upper bound of each.
    pub pairs: [(i32, i32); 8],
}

/// What a cell holds where a machine word has no room for it.
#[derive(Clone, Copy)]
pub enum Wide {
    /// A STRING.
    Str(Text),
    /// The place of a part of a string variable.
    Part(Part),
    /// An array or a subarray.
    Array(Descriptor),
    /// A copied actual.
    Thunk(Closed),
    /// A procedure.
    Procedure(Procedure),
    /// The bounds of an array that is to be declared.
    Bounds(Bounds),
}

impl Wide {
    /// What fills the room before anything is held.
    pub(crate) const BLANK: Wide = Wide::Procedure(Procedure {
        head: 0,
        link: None,
    });

    /// It becomes the same as another. What is written is what that is, without the room behind it.
    #[inline(always)]
    pub fn copy_from(&mut self, other: &Wide)
        ensures { self.new ≡ other.now }
    {
        match other {
            Wide::Thunk(thunk) => self.set_thunk(thunk),
            Wide::Procedure(procedure) => self.set_procedure(procedure),
            Wide::Array(array) => self.set_array(array),
            _ => self.copy_longer(other),
        }
    }

    /// The same of a string, a part or bounds. Out of line: what it takes would else be made ready for names, arrays and
    /// procedures too.
    #[inline(never)]
    fn copy_longer(&mut self, other: &Wide)
        ensures { self.new ≡ other.now }
    {
        match other {
            Wide::Str(text) => self.set_text(text.as_slice()),
            Wide::Part(part) => self.set_part(part),
            _ => *self = *other,
        }
    }

    /// Characters of its string, from a place on, become these. False exactly where it is no string that has so many
    /// there, and then it stays as it was.
    pub(crate) fn overwrite(&mut self, from: usize, characters: &[u8]) -> bool
        ensures answer { result ≡ is_some (text_over from characters.now self.old) }
        ensures written { IfSome (text_over from characters.now self.old) (λ s. self.new ≡ Wide.Str s) }
        ensures unchanged { result ≡ false → self.new ≡ self.old }
    {
        match self {
            Wide::Str(text) => {
                let room = text.len();
                let has = from <= room && characters.len() <= room - from;
                if has {
                    text.overwrite(from, characters);
                }
                has
            }
            _ => false,
        }
    }

    /// It becomes a part of a string variable.
    pub fn set_part(&mut self, part: &Part)
        ensures { self.new ≡ Wide.Part part.now }
    {
        match self {
            Wide::Part(own) => *own = *part,
            _ => *self = Wide::Part(*part),
        }
    }

    /// It becomes an array.
    fn set_array(&mut self, array: &Descriptor)
        ensures { self.new ≡ Wide.Array array.now }
    {
        match self {
            Wide::Array(own) => own.copy_from(array),
            _ => self.become_array(array),
        }
    }

    /// It becomes a copied actual.
    #[inline(always)]
    pub fn set_thunk(&mut self, thunk: &Closed)
        ensures { self.new ≡ Wide.Thunk thunk.now }
    {
        match self {
            Wide::Thunk(own) => own.copy_from(thunk),
            _ => self.become_thunk(*thunk),
        }
    }

    /// It becomes a procedure.
    #[inline(always)]
    pub fn set_procedure(&mut self, procedure: &Procedure)
        ensures { self.new ≡ Wide.Procedure procedure.now }
    {
        match self {
            Wide::Procedure(own) => *own = *procedure,
            _ => self.become_procedure(*procedure),
        }
    }

    /// The same, where it is of another kind: its room is written anew.
    #[inline(never)]
    fn become_array(&mut self, array: &Descriptor)
        ensures { self.new ≡ Wide.Array array.now }
    {
        *self = Wide::Array(*array);
    }

    /// The same, where it is of another kind: its room is written anew.
    #[inline(never)]
    fn become_thunk(&mut self, thunk: Closed)
        ensures { self.new ≡ Wide.Thunk thunk }
    {
        *self = Wide::Thunk(thunk);
    }

    /// The same, where it is of another kind: its room is written anew.
    #[inline(never)]
    fn become_procedure(&mut self, procedure: Procedure)
        ensures { self.new ≡ Wide.Procedure procedure }
    {
        *self = Wide::Procedure(procedure);
    }

    /// It becomes a string of these characters.
    pub fn set_text(&mut self, characters: &[u8])
        requires { length characters.now ≤ 256 }
        ensures { self.new ≡ Wide.Str characters.now }
    {
        self.set_filled(characters, 0);
    }

    /// It becomes a string of these characters, filled with blanks to a length.
    #[inline(always)]
    pub(crate) fn set_filled(&mut self, characters: &[u8], count: u16)
        requires few { length characters.now ≤ 256 }
        requires most { count ≤ 256 }
        ensures { self.new ≡ Wide.Str (filled count characters.now) }
    {
        match self {
            Wide::Str(text) => write_filled(text, characters, count),
            _ => self.set_anew(characters, count),
        }
    }

    /// The same, where it holds no string.
    fn set_anew(&mut self, characters: &[u8], count: u16)
        requires few { length characters.now ≤ 256 }
        requires most { count ≤ 256 }
        ensures { self.new ≡ Wide.Str (filled count characters.now) }
    {
        *self = Wide::Str(Text::new());
        match self {
            Wide::Str(text) => write_filled(text, characters, count),
            _ => unreachable!(),
        }
    }
}

/// A text becomes these characters, filled with blanks to a length.
#[inline(always)]
fn write_filled(text: &mut Text, characters: &[u8], count: u16)
    requires few { length characters.now ≤ 256 }
    requires most { count ≤ 256 }
    ensures { text.new ≡ filled count characters.now }
{
    write(text, characters);
    if characters.len() < usize::from(count) {
        text.extend_with(usize::from(count) - characters.len(), b' ');
    }
}

/// A text becomes these characters.
#[inline(always)]
fn write(text: &mut Text, characters: &[u8])
    requires { length characters.now ≤ 256 }
    ensures { text.new ≡ characters.now }
{
    text.truncate(characters.len());
    let (first, more) = characters.split_at(text.len());
    text.overwrite(0, first);
    if !more.is_empty() {
        text.extend_from_slice(more);
    }
}
