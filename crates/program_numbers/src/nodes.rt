ghost use Rattle.std.specs.Prelude.{◌≡◌, IfOk};
ghost use Rattle.algolw_tree.specs.View.{kind_tree, optional_tree, tree};
ghost use Rattle.algolw_typing.specs.ProgramView as program;
ghost use Rattle.typed_findings.specs.Findings.{finding_view};
ghost use Rattle.program_numbers.specs.Makes.{MakesTaken};
ghost use Rattle.program_numbers.specs.Numbered.{KindNumbered, NodeNumbered, PerhapsNumbered};
ghost use Rattle.program_numbers.specs.ProgramParts.{perhaps_in};
ghost use Rattle.program_numbers.specs.Taken.{kind_taken, node_taken, own_taken, perhaps_taken};

use crate::numbering::Numbering;
use crate::table_builder::TableBuilder;
use algolw_tree::{Kind, Node, NodeKind, Phrase};
use std::alloc::AllocError;
use typed_findings::{Finding, Untaken};
use value_ops::Place;

/// Takes what is found of a phrase of a kind itself. Of an empty one nothing is: it is a statement, but none that is counted.
fn take_own<'a>(kind: &Kind, found: &mut Untaken<'_, 'a>) -> Finding<'a>
    ensures own { finding_view result ≡ (own_taken (kind_tree kind.now) found.old).0 }
    ensures left { found.new ≡ (own_taken (kind_tree kind.now) found.old).1 }
{
    match kind {
        Kind::Empty => Finding::Statement,
        _ => found.take(),
    }
}

/// Phrases, as the next findings say what they are.
impl Numbering {
    /// A phrase.
    #[cycle(nodes)]
    pub fn node(
        &self,
        table: &mut TableBuilder,
        phrase: &Phrase,
        found: &mut Untaken,
    ) -> Result<Node, AllocError>
        requires { NodeNumbered self.now (node_taken (tree phrase.now) found.old).0 }
        ensures { IfOk result (λ made. MakesTaken self.now table.old table.new (λ ns. program.node_view ns made)
            found.new (node_taken (tree phrase.now) found.old)) }
    {
        let kind = self.kind(table, phrase.place, &phrase.kind, found)?;
        let own = take_own(&phrase.kind, found);
        let gives = self.gives(table, own.phrase_type())?;
        let statement = self.statement(own);
        Ok(Node {
            place: phrase.place,
            first: phrase.first,
            kind,
            gives,
            statement,
        })
    }

    /// What a phrase at a place is.
    #[cycle(nodes)]
    fn kind(
        &self,
        table: &mut TableBuilder,
        place: Place,
        kind: &Kind,
        found: &mut Untaken,
    ) -> Result<NodeKind, AllocError>
        requires { KindNumbered self.now (kind_taken place (kind_tree kind.now) found.old).0 }
        ensures { IfOk result (λ made. MakesTaken self.now table.old table.new (λ ns. program.kind_view ns made)
            found.new (kind_taken place (kind_tree kind.now) found.old)) }
    {
        match kind {
            Kind::Empty => Ok(NodeKind::Empty),
            Kind::Null => Ok(NodeKind::Null),
            Kind::Number(number) => Ok(NodeKind::Number(*number)),
            Kind::Truth(truth) => Ok(NodeKind::Truth(*truth)),
            Kind::BitsLit(bits) => Ok(NodeKind::BitsLit(*bits)),
            Kind::Quoted(text) => Ok(NodeKind::Quoted(self.literal(text.as_slice())?)),
            Kind::Goto(_) => Ok(NodeKind::Goto(self.names.number(found.take_name()))),
            Kind::Named(_) => {
                let name = self.names.number(found.take_name());
                Ok(NodeKind::Named(name, Vec::new(self.alloc)))
            }
            Kind::Applied(application) => self.applied(table, application, found),
            Kind::Listed(listed) => self.listed(table, listed, found),
            Kind::Negated(operand) => Ok(NodeKind::Negated(self.boxed(table, operand, found)?)),
            Kind::Abs(operand) => Ok(NodeKind::Abs(self.boxed(table, operand, found)?)),
            Kind::Signed(minus, operand) => {
                Ok(NodeKind::Signed(*minus, self.boxed(table, operand, found)?))
            }
            Kind::Chain(chain) => self.chain(table, chain, found),
            Kind::Relation(comparison) => self.relation(table, comparison, found),
            Kind::IsClass(test) => self.class_test(table, test, found),
            Kind::Assign(assignment) => self.assignment(table, assignment, found),
            Kind::IfThen(conditional) => self.conditional(table, conditional, found),
            Kind::CaseValue(case) => self.case_value(table, case, found),
            Kind::CaseDo(case) => self.case_do(table, case, found),
            Kind::ForStep(turns) => self.for_step(table, place, turns, found),
            Kind::ForList(turns) => self.for_list(table, place, turns, found),
            Kind::WhileDo(repetition) => self.repetition(table, repetition, found),
            Kind::Assert(condition) => Ok(NodeKind::Assert(self.boxed(table, condition, found)?)),
            Kind::Block(block) => self.block(table, &block.decls, &block.items, found),
        }
    }

    /// A phrase, behind a pointer.
    #[cycle(nodes)]
    pub fn boxed(
        &self,
        table: &mut TableBuilder,
        phrase: &Phrase,
        found: &mut Untaken,
    ) -> Result<Box<Node>, AllocError>
        requires { NodeNumbered self.now (node_taken (tree phrase.now) found.old).0 }
        ensures { IfOk result (λ made. MakesTaken self.now table.old table.new (λ ns. program.node_view ns made.value)
            found.new (node_taken (tree phrase.now) found.old)) }
    {
        let node = self.node(table, phrase, found)?;
        let boxed = Box::new(self.alloc, node)?;
        Ok(boxed)
    }

    /// A phrase that may be missing, behind a pointer.
    #[cycle(nodes)]
    pub fn perhaps(
        &self,
        table: &mut TableBuilder,
        phrase: &Option<Box<Phrase>>,
        found: &mut Untaken,
    ) -> Result<Option<Box<Node>>, AllocError>
        requires { PerhapsNumbered self.now (perhaps_taken (optional_tree phrase.now) found.old).0 }
        ensures { IfOk result (λ made. MakesTaken self.now table.old table.new (λ ns. perhaps_in ns made)
            found.new (perhaps_taken (optional_tree phrase.now) found.old)) }
    {
        match phrase {
            Some(phrase) => Ok(Some(self.boxed(table, phrase, found)?)),
            None => Ok(None),
        }
    }
}
