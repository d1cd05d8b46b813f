ghost use Rattle.std.specs.Prelude.{IfOk};
ghost use Rattle.algolw_tree.specs.View.{applied_tree, assignment_tree, case_do_tree, case_value_tree, chain_tree, class_test_tree, conditional_tree, for_list_tree, for_step_tree, listed_tree, relation_tree, repetition_tree};
ghost use Rattle.algolw_typing.specs.ProgramView as program;
ghost use Rattle.program_numbers.specs.Makes.{MakesTaken};
ghost use Rattle.program_numbers.specs.Numbered.{KindNumbered};
ghost use Rattle.program_numbers.specs.Taken.{kind_taken, taken_anywhere};

use crate::numbering::Numbering;
use crate::table_builder::TableBuilder;
use algolw_tree::{
    Applied, Assignment, CaseDo, CaseValue, Chain, ClassTest, Conditional, ForList, ForStep,
    Listed, NodeKind, Relation, Repetition, TypedList, TypedListKind,
};
use std::alloc::AllocError;
use typed_findings::Untaken;
use value_ops::Place;

/// Phrases that are made of others.
impl Numbering {
    /// A name and the one list of actuals behind it.
    #[cycle(nodes)]
    pub fn applied(
        &self,
        table: &mut TableBuilder,
        application: &Applied,
        found: &mut Untaken,
    ) -> Result<NodeKind, AllocError>
        requires { KindNumbered self.now (taken_anywhere (applied_tree application.now) found.old).0 }
        ensures { IfOk result (λ made. MakesTaken self.now table.old table.new
            (λ ns. program.kind_view ns made)
            found.new (taken_anywhere (applied_tree application.now) found.old)) }
    {
        let name = self.names.number(found.take_name());
        let actuals = self.actuals(table, &application.actuals, found)?;
        let mut lists = Vec::with_capacity(self.alloc, 1)?;
        lists.push(TypedList {
            place: application.place,
            kind: TypedListKind::Actuals(actuals),
        })?;
        Ok(NodeKind::Named(name, lists))
    }

    /// A name and the lists behind it.
    #[cycle(nodes)]
    pub fn listed(
        &self,
        table: &mut TableBuilder,
        listed: &Listed,
        found: &mut Untaken,
    ) -> Result<NodeKind, AllocError>
        requires { KindNumbered self.now (taken_anywhere (listed_tree listed.now) found.old).0 }
        ensures { IfOk result (λ made. MakesTaken self.now table.old table.new
            (λ ns. program.kind_view ns made)
            found.new (taken_anywhere (listed_tree listed.now) found.old)) }
    {
        let name = self.names.number(found.take_name());
        let lists = self.lists(table, &listed.lists, found)?;
        Ok(NodeKind::Named(name, lists))
    }

    /// A chain.
    #[cycle(nodes)]
    pub fn chain(
        &self,
        table: &mut TableBuilder,
        chain: &Chain,
        found: &mut Untaken,
    ) -> Result<NodeKind, AllocError>
        requires { KindNumbered self.now (taken_anywhere (chain_tree chain.now) found.old).0 }
        ensures { IfOk result (λ made. MakesTaken self.now table.old table.new
            (λ ns. program.kind_view ns made)
            found.new (taken_anywhere (chain_tree chain.now) found.old)) }
    {
        let first = self.boxed(table, &chain.first, found)?;
        let links = self.links(table, &chain.links, found)?;
        Ok(NodeKind::Chain(first, links))
    }

    /// A comparison.
    #[cycle(nodes)]
    pub fn relation(
        &self,
        table: &mut TableBuilder,
        comparison: &Relation,
        found: &mut Untaken,
    ) -> Result<NodeKind, AllocError>
        requires { KindNumbered self.now (taken_anywhere (relation_tree comparison.now) found.old).0 }
        ensures { IfOk result (λ made. MakesTaken self.now table.old table.new
            (λ ns. program.kind_view ns made)
            found.new (taken_anywhere (relation_tree comparison.now) found.old)) }
    {
        let left = self.boxed(table, &comparison.left, found)?;
        let right = self.boxed(table, &comparison.right, found)?;
        Ok(NodeKind::Relation(comparison.op, left, right))
    }

    /// A test of a reference's class.
    #[cycle(nodes)]
    pub fn class_test(
        &self,
        table: &mut TableBuilder,
        test: &ClassTest,
        found: &mut Untaken,
    ) -> Result<NodeKind, AllocError>
        requires { KindNumbered self.now (taken_anywhere (class_test_tree test.now) found.old).0 }
        ensures { IfOk result (λ made. MakesTaken self.now table.old table.new
            (λ ns. program.kind_view ns made)
            found.new (taken_anywhere (class_test_tree test.now) found.old)) }
    {
        let reference = self.boxed(table, &test.reference, found)?;
        let class = self.names.number(found.take_name());
        Ok(NodeKind::IsClass(reference, class, test.class.1))
    }

    /// An assignment.
    #[cycle(nodes)]
    pub fn assignment(
        &self,
        table: &mut TableBuilder,
        assignment: &Assignment,
        found: &mut Untaken,
    ) -> Result<NodeKind, AllocError>
        requires { KindNumbered self.now (taken_anywhere (assignment_tree assignment.now) found.old).0 }
        ensures { IfOk result (λ made. MakesTaken self.now table.old table.new
            (λ ns. program.kind_view ns made)
            found.new (taken_anywhere (assignment_tree assignment.now) found.old)) }
    {
        let target = self.boxed(table, &assignment.target, found)?;
        let value = self.boxed(table, &assignment.value, found)?;
        Ok(NodeKind::Assign(target, value))
    }

    /// An IF.
    #[cycle(nodes)]
    pub fn conditional(
        &self,
        table: &mut TableBuilder,
        conditional: &Conditional,
        found: &mut Untaken,
    ) -> Result<NodeKind, AllocError>
        requires { KindNumbered self.now (taken_anywhere (conditional_tree conditional.now) found.old).0 }
        ensures { IfOk result (λ made. MakesTaken self.now table.old table.new
            (λ ns. program.kind_view ns made)
            found.new (taken_anywhere (conditional_tree conditional.now) found.old)) }
    {
        let condition = self.boxed(table, &conditional.condition, found)?;
        let then = self.boxed(table, &conditional.then, found)?;
        let otherwise = self.perhaps(table, &conditional.otherwise, found)?;
        Ok(NodeKind::IfThen(condition, then, otherwise))
    }

    /// A CASE with values to choose from.
    #[cycle(nodes)]
    pub fn case_value(
        &self,
        table: &mut TableBuilder,
        case: &CaseValue,
        found: &mut Untaken,
    ) -> Result<NodeKind, AllocError>
        requires { KindNumbered self.now (taken_anywhere (case_value_tree case.now) found.old).0 }
        ensures { IfOk result (λ made. MakesTaken self.now table.old table.new
            (λ ns. program.kind_view ns made)
            found.new (taken_anywhere (case_value_tree case.now) found.old)) }
    {
        let selector = self.boxed(table, &case.selector, found)?;
        let values = self.nodes(table, &case.values, found)?;
        Ok(NodeKind::CaseValue(selector, values))
    }

    /// A CASE with statements to choose from.
    #[cycle(nodes)]
    pub fn case_do(
        &self,
        table: &mut TableBuilder,
        case: &CaseDo,
        found: &mut Untaken,
    ) -> Result<NodeKind, AllocError>
        requires { KindNumbered self.now (taken_anywhere (case_do_tree case.now) found.old).0 }
        ensures { IfOk result (λ made. MakesTaken self.now table.old table.new
            (λ ns. program.kind_view ns made)
            found.new (taken_anywhere (case_do_tree case.now) found.old)) }
    {
        let selector = self.boxed(table, &case.selector, found)?;
        let parts = self.parts(table, &case.parts, found)?;
        Ok(NodeKind::CaseDo(selector, parts))
    }

    /// A FOR with a limit. Its control name is declared at the place at which it stands.
    #[cycle(nodes)]
    pub fn for_step(
        &self,
        table: &mut TableBuilder,
        place: Place,
        turns: &ForStep,
        found: &mut Untaken,
    ) -> Result<NodeKind, AllocError>
        requires { KindNumbered self.now (kind_taken place (for_step_tree turns.now) found.old).0 }
        ensures { IfOk result (λ made. MakesTaken self.now table.old table.new
            (λ ns. program.kind_view ns made)
            found.new (kind_taken place (for_step_tree turns.now) found.old)) }
    {
        let start = self.boxed(table, &turns.start, found)?;
        let step = self.perhaps(table, &turns.step, found)?;
        let limit = self.boxed(table, &turns.limit, found)?;
        let body = self.boxed(table, &turns.body, found)?;
        let control = self.names.number(place);
        Ok(NodeKind::ForStep(control, start, step, limit, body))
    }

    /// A FOR with values. Its control name is declared at the place at which it stands.
    #[cycle(nodes)]
    pub fn for_list(
        &self,
        table: &mut TableBuilder,
        place: Place,
        turns: &ForList,
        found: &mut Untaken,
    ) -> Result<NodeKind, AllocError>
        requires { KindNumbered self.now (kind_taken place (for_list_tree turns.now) found.old).0 }
        ensures { IfOk result (λ made. MakesTaken self.now table.old table.new
            (λ ns. program.kind_view ns made)
            found.new (kind_taken place (for_list_tree turns.now) found.old)) }
    {
        let values = self.nodes(table, &turns.values, found)?;
        let body = self.boxed(table, &turns.body, found)?;
        let control = self.names.number(place);
        Ok(NodeKind::ForList(control, values, body))
    }

    /// A WHILE.
    #[cycle(nodes)]
    pub fn repetition(
        &self,
        table: &mut TableBuilder,
        repetition: &Repetition,
        found: &mut Untaken,
    ) -> Result<NodeKind, AllocError>
        requires { KindNumbered self.now (taken_anywhere (repetition_tree repetition.now) found.old).0 }
        ensures { IfOk result (λ made. MakesTaken self.now table.old table.new
            (λ ns. program.kind_view ns made)
            found.new (taken_anywhere (repetition_tree repetition.now) found.old)) }
    {
        let condition = self.boxed(table, &repetition.condition, found)?;
        let body = self.boxed(table, &repetition.body, found)?;
        Ok(NodeKind::WhileDo(condition, body))
    }
}
