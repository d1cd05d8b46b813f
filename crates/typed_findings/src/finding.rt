ghost use Rattle.std.specs.Prelude.{◌≡◌, Some, None};
ghost use Rattle.std.specs.Option.{option_map};
ghost use Rattle.algolw_typing.specs.Verdicts.{type_of};
ghost use Rattle.typing_rules.specs.View.{phrase_type, value_type, verdict};
ghost use Rattle.typed_findings.specs.Findings.{as_phrase, as_type, finding_view, gives_of, own_finding};

use typing_rules::{ClassSet, PhraseType, ValueType, Verdict};
use value_ops::Place;

/// What is found of a phrase, of a type that is written, or of a name. There are many, so each is held in few bytes.
#[derive(Clone, Copy)]
pub enum Finding<'a> {
    /// No type: of a phrase that is faulty or an actual that stands for an array or a procedure, or may; of a procedure that
    /// has no value.
    Untyped,
    /// Nothing is given: it is a statement, but none that is counted.
    Statement,
    /// Nothing is given: it is a statement, which is counted at its first token, at this place.
    Counted(Place),
    /// A value of type INTEGER, or this type.
    Integer,
    /// A value of type LOGICAL, or this type.
    Logical,
    /// A value of type BITS, or this type.
    Bits,
    /// A value of type STRING of this length, or this type.
    Str(u32),
    /// A value of type REFERENCE to these classes, or this type.
    Reference(ClassSet<'a>),
    /// A name, which is declared at this place.
    Name(Place),
}

impl<'a> Finding<'a> {
    /// A type that is written, or that a procedure without a value hasn't.
    pub fn of_type(of: Option<ValueType<'a>>) -> Finding<'a>
        ensures { finding_view result ≡ as_type (option_map value_type of.entry) }
    {
        match of {
            None => Finding::Untyped,
            Some(ValueType::Integer) => Finding::Integer,
            Some(ValueType::Logical) => Finding::Logical,
            Some(ValueType::Bits) => Finding::Bits,
            Some(ValueType::Str(length)) => Finding::Str(length),
            Some(ValueType::Reference(classes)) => Finding::Reference(classes),
        }
    }

    /// A phrase with this verdict. A statement isn't counted.
    pub fn uncounted(found: Verdict<'a>) -> Finding<'a>
        ensures { finding_view result ≡ as_phrase (type_of (verdict found.entry)) None }
    {
        match found {
            Ok(PhraseType::Statement) => Finding::Statement,
            Ok(PhraseType::Value(of)) => Finding::of_type(Some(of)),
            Err(_) => Finding::Untyped,
        }
    }

    /// A phrase with this verdict, whose first token stands at a place. A statement is counted there.
    pub fn of_phrase(first: Place, found: Verdict<'a>) -> Finding<'a>
        ensures { finding_view result ≡ own_finding first (verdict found.entry) }
    {
        match found {
            Ok(PhraseType::Statement) => Finding::Counted(first),
            Ok(PhraseType::Value(of)) => Finding::of_type(Some(of)),
            Err(_) => Finding::Untyped,
        }
    }

    /// What the phrase gives of which it was found.
    pub fn phrase_type(self) -> Option<PhraseType<'a>>
        ensures { option_map phrase_type result ≡ gives_of (finding_view self.entry) }
    {
        match self {
            Finding::Untyped | Finding::Name(_) => None,
            Finding::Statement | Finding::Counted(_) => Some(PhraseType::Statement),
            Finding::Integer => Some(PhraseType::Value(ValueType::Integer)),
            Finding::Logical => Some(PhraseType::Value(ValueType::Logical)),
            Finding::Bits => Some(PhraseType::Value(ValueType::Bits)),
            Finding::Str(length) => Some(PhraseType::Value(ValueType::Str(length))),
            Finding::Reference(classes) => Some(PhraseType::Value(ValueType::Reference(classes))),
        }
    }
}
