ghost use Rattle.std.specs.Prelude.{◌≡◌, map};
ghost use Rattle.std.specs.Option.{option_map};
ghost use Rattle.typing_rules.specs.View.{value_type};
ghost use Rattle.typed_findings.specs.Findings.{finding_view};
ghost use Rattle.typed_findings.specs.Taking.{first_found, name_of, rest_found, simple_type_of, type_of};

use crate::finding::Finding;
use std::marker::Model;
use typing_rules::{PhraseType, ValueType};
use value_ops::Place;

/// Findings that are still to be taken, in order.
#[derive(Drop)]
pub struct Untaken<'f, 'a> {
    findings: &'f [Finding<'a>],
}

impl<'f, 'a> Model for Untaken<'f, 'a> {
    ghost use Rattle.std.specs.Prelude.{List, map};
    ghost use Rattle.typed_findings.specs.Findings.{Found, finding_view};

    ghost Value = { List Found };

    ghost view = { λ u. map finding_view u.findings.now };
}

impl<'f, 'a> Untaken<'f, 'a> {
    /// All of these.
    pub fn new(findings: &'f [Finding<'a>]) -> Untaken<'f, 'a>
        ensures { result ≡ map finding_view findings.now }
    {
        Untaken { findings }
    }

    /// Takes the next one. Where none is left, it is that of a phrase without a type.
    pub fn take(&mut self) -> Finding<'a>
        ensures first { finding_view result ≡ first_found self.old }
        ensures rest { self.new ≡ rest_found self.old }
    {
        let [first, rest @ ..] = self.findings else {
            return Finding::Untyped;
        };
        self.findings = rest;
        *first
    }

    /// Takes what is found of a name: the place of its declaration. Of anything else it is a place where nothing stands.
    pub fn take_name(&mut self) -> Place
        ensures first { result ≡ name_of (first_found self.old) }
        ensures rest { self.new ≡ rest_found self.old }
    {
        match self.take() {
            Finding::Name(place) => place,
            _ => Place { card: 0, column: 0 },
        }
    }

    /// Takes the type of a procedure or of a formal, which may have none.
    pub fn take_type(&mut self) -> Option<ValueType<'a>>
        ensures first { option_map value_type result ≡ type_of (first_found self.old) }
        ensures rest { self.new ≡ rest_found self.old }
    {
        match self.take().phrase_type() {
            Some(PhraseType::Value(of)) => Some(of),
            _ => None,
        }
    }

    /// Takes a type that is written. Of anything else it is INTEGER.
    pub fn take_simple_type(&mut self) -> ValueType<'a>
        ensures first { value_type result ≡ simple_type_of (first_found self.old) }
        ensures rest { self.new ≡ rest_found self.old }
    {
        self.take_type().unwrap_or(ValueType::Integer)
    }
}
