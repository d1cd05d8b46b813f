ghost use Rattle.std.specs.Prelude.{◌≡◌};
ghost use Rattle.symbol_table.specs.Standings as standings;

use crate::here::Here;
use algolw_tree::Standard;
use stack_code::Source;
use value_ops::{ClassId, SimpleType};

/// Where a variable, an array or a formal stands.
#[derive(Clone, Copy)]
pub struct Entry {
    /// How deep its text is.
    pub level: u16,
    /// Its position among the entries of that text.
    pub position: u32,
}

/// A procedure that is declared.
#[derive(Clone, Copy)]
pub struct Procedure {
    /// Where its formals begin.
    pub formals: u32,
    /// How many formals it has.
    pub count: u32,
    /// The type of its value, where it has one.
    pub result: Option<SimpleType>,
    /// How deep the text is that declares it.
    pub level: u16,
    /// The target at which its head stands.
    pub target: u32,
}

/// A record class.
#[derive(Clone, Copy)]
pub struct Class {
    /// Its number.
    pub class: ClassId,
    /// Where the types of its fields begin.
    pub fields: u32,
    /// How many fields it has.
    pub count: u32,
}

/// What a name stands for.
#[derive(Clone, Copy)]
pub enum Standing {
    /// Nothing that may be used here.
    Unknown,
    /// What it is in every deck.
    Standard(Standard),
    /// A variable, or a formal that is one.
    Variable(SimpleType, Entry),
    /// A name formal.
    NameFormal(SimpleType, Entry),
    /// The name that a FOR counts with.
    Control(Entry),
    /// An array, or a formal that is one.
    Array(SimpleType, Entry),
    /// A procedure.
    Procedure(Procedure),
    /// A procedure formal, with the type of its value where it has one.
    ProcedureFormal(Option<SimpleType>, Entry),
    /// A record class.
    Class(Class),
    /// The field of a class at a position.
    Field(ClassId, u32, SimpleType),
    /// A label: its block's mark, and the target at which its item stands.
    Label(Entry, u32),
}

impl Standing {
    /// The entry that it has, a procedure the first one of its text.
    pub fn entry(self) -> Option<Entry>
        ensures { result ≡ standings.entry_of self }
    {
        match self {
            Standing::Variable(_, entry)
            | Standing::NameFormal(_, entry)
            | Standing::Control(entry)
            | Standing::Array(_, entry)
            | Standing::ProcedureFormal(_, entry)
            | Standing::Label(entry, _) => Some(entry),
            Standing::Procedure(procedure) => Some(Entry {
                level: procedure.level,
                position: 0,
            }),
            Standing::Unknown
            | Standing::Standard(_)
            | Standing::Class(_)
            | Standing::Field(_, _, _) => None,
        }
    }

    /// What stands for the name, from here.
    pub fn source(self, here: Here) -> Option<Source>
        ensures { result ≡ standings.source_from here self }
    {
        if let Standing::Procedure(procedure) = self {
            return Some(Source::Head {
                links: here.links(procedure.level),
                head: procedure.target,
            });
        }
        let entry = self.entry()?;
        Some(Source::Entry {
            links: here.links(entry.level),
            position: entry.position,
        })
    }

    /// What stands for the name where it isn't a label.
    pub fn read_source(self, here: Here) -> Option<Source>
        ensures { result ≡ standings.read_source here self }
    {
        match self {
            Standing::Label(_, _) => None,
            standing => standing.source(here),
        }
    }

    /// Whether with whatever lists it is a variable.
    pub fn is_variable(self) -> bool
        ensures { result ≡ standings.is_variable self }
    {
        matches!(
            self,
            Standing::Variable(_, _)
                | Standing::NameFormal(_, _)
                | Standing::Array(_, _)
                | Standing::Field(_, _, _)
                | Standing::Standard(Standard::Variable(_))
        )
    }
}
