ghost use Rattle.std.specs.Prelude.{◌≡◌, ◌∷◌, [], ◌++◌, IfOk, OnOk, map};
ghost use Rattle.algolw_typing.specs.Naming.{nothing};
ghost use Rattle.typed_findings.specs.Findings.{counted_places, finding_view};
ghost use Rattle.typed_findings.specs.Noted.{Notes};

use crate::classes::FoundClass;
use crate::finding::Finding;
use algolw_tree::NameInfo;
use std::alloc::{AllocError, Global};
use value_ops::{Diagnostic, Place};

/// What checking has found so far, in order.
#[derive(Drop)]
pub struct Log<'a> {
    /// The faults.
    pub faults: Vec<Diagnostic>,
    /// What is found of phrases, types and names.
    pub findings: Vec<Finding<'a>>,
    /// What is declared.
    pub names: Vec<NameInfo>,
    /// The record classes.
    pub classes: Vec<FoundClass<'a>>,
}

impl<'a> Log<'a> {
    /// Nothing yet.
    pub fn new(alloc: Global) -> Log<'a>
        ensures faults { result.faults.items ≡ [] }
        ensures findings { result.findings.items ≡ [] }
        ensures names { result.names.items ≡ [] }
        ensures classes { result.classes.items ≡ [] }
    {
        Log {
            faults: Vec::new(alloc),
            findings: Vec::new(alloc),
            names: Vec::new(alloc),
            classes: Vec::new(alloc),
        }
    }

    /// Adds a finding.
    pub fn add(&mut self, finding: Finding<'a>) -> Result<(), AllocError>
        ensures faults { OnOk result (self.new.faults.items ≡ self.old.faults.items) }
        ensures findings { OnOk result (self.new.findings.items ≡ self.old.findings.items ++ finding.entry ∷ []) }
        ensures notes { OnOk result (Notes self.old self.new nothing) }
    {
        self.findings.push(finding)?;
        Ok(())
    }
}

/// The places of the statements that are counted, in the order in which they were found.
pub fn statements(alloc: Global, findings: &[Finding]) -> Result<Vec<Place>, AllocError>
    ensures { IfOk result (λ places. places.items ≡ counted_places (map finding_view findings.now)) }
{
    let mut places = Vec::new(alloc);
    for finding in findings {
        if let Finding::Counted(place) = finding {
            places.push(*place)?;
        }
    }
    Ok(places)
}
