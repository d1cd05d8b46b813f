ghost use Rattle.std.specs.Prelude.{IfOk, map};
ghost use Rattle.algolw_tree.specs.Grammar.{actuals_of, links_of, lists_of, phrases_of};
ghost use Rattle.algolw_tree.specs.View.{actual_tree, link_tree, list_tree, part_tree, tree};
ghost use Rattle.algolw_typing.specs.ProgramView as program;
ghost use Rattle.algolw_typing.specs.Typed as typed;
ghost use Rattle.program_numbers.specs.Makes.{MakesTaken};
ghost use Rattle.program_numbers.specs.Numbered.{ActualNumbered, ActualsNumbered, LinksNumbered, ListingNumbered, ListsNumbered, NodeNumbered, NodesNumbered};
ghost use Rattle.program_numbers.specs.Onto.{actuals_onto, links_onto, lists_onto, nodes_onto};
ghost use Rattle.program_numbers.specs.ProgramParts.{link_in, list_in};
ghost use Rattle.program_numbers.specs.Taken.{actual_taken, actuals_taken, links_taken, listing_taken, lists_taken, node_taken, nodes_taken};

use crate::numbering::Numbering;
use crate::table_builder::TableBuilder;
use algolw_tree::{
    Actual, Link, List, ListKind, Node, Part, Phrase, TypedActual, TypedLink, TypedList,
    TypedListKind, TypedPart,
};
use std::alloc::AllocError;
use typed_findings::Untaken;

/// Rows of phrases, and what stands in them.
impl Numbering {
    /// Phrases.
    #[cycle(nodes)]
    pub fn nodes(
        &self,
        table: &mut TableBuilder,
        phrases: &[Phrase],
        found: &mut Untaken,
    ) -> Result<Vec<Node>, AllocError>
        requires { NodesNumbered self.now (nodes_taken (phrases_of (map tree phrases.now)) found.old).0 }
        ensures { IfOk result (λ made. MakesTaken self.now table.old table.new
            (λ ns. nodes_onto (map (program.node_view ns) made.items) typed.no_nodes)
            found.new (nodes_taken (phrases_of (map tree phrases.now)) found.old)) }
    {
        let mut made = Vec::with_capacity(self.alloc, phrases.len())?;
        for phrase in phrases {
            let next = self.node(table, phrase, found)?;
            made.push(next)?;
        }
        Ok(made)
    }

    /// Statements that may be missing.
    #[cycle(nodes)]
    pub fn parts(
        &self,
        table: &mut TableBuilder,
        parts: &[Part],
        found: &mut Untaken,
    ) -> Result<Vec<TypedPart>, AllocError>
        requires { NodesNumbered self.now (nodes_taken (phrases_of (map part_tree parts.now)) found.old).0 }
        ensures { IfOk result (λ made. MakesTaken self.now table.old table.new
            (λ ns. nodes_onto (map (program.part_view ns) made.items) typed.no_nodes)
            found.new (nodes_taken (phrases_of (map part_tree parts.now)) found.old)) }
    {
        let mut made = Vec::with_capacity(self.alloc, parts.len())?;
        for part in parts {
            let next = self.part(table, part, found)?;
            made.push(next)?;
        }
        Ok(made)
    }

    /// A statement that may be missing.
    #[cycle(nodes)]
    fn part(
        &self,
        table: &mut TableBuilder,
        part: &Part,
        found: &mut Untaken,
    ) -> Result<TypedPart, AllocError>
        requires { NodeNumbered self.now (node_taken (part_tree part.now) found.old).0 }
        ensures { IfOk result (λ made. MakesTaken self.now table.old table.new
            (λ ns. program.part_view ns made)
            found.new (node_taken (part_tree part.now) found.old)) }
    {
        match part {
            Part::Empty(place) => Ok(TypedPart::Empty(*place)),
            Part::Phrase(phrase) => Ok(TypedPart::Phrase(self.boxed(table, phrase, found)?)),
        }
    }

    /// The operators of a chain and their operands.
    #[cycle(nodes)]
    pub fn links(
        &self,
        table: &mut TableBuilder,
        links: &[Link],
        found: &mut Untaken,
    ) -> Result<Vec<TypedLink>, AllocError>
        requires { LinksNumbered self.now (links_taken (links_of (map link_tree links.now)) found.old).0 }
        ensures { IfOk result (λ made. MakesTaken self.now table.old table.new
            (λ ns. links_onto (map (link_in ns) made.items) typed.no_links)
            found.new (links_taken (links_of (map link_tree links.now)) found.old)) }
    {
        let mut made = Vec::with_capacity(self.alloc, links.len())?;
        for link in links {
            let right = self.node(table, &link.right, found)?;
            made.push(TypedLink {
                op: link.op,
                place: link.place,
                right,
            })?;
        }
        Ok(made)
    }

    /// The lists behind a name.
    #[cycle(nodes)]
    pub fn lists(
        &self,
        table: &mut TableBuilder,
        lists: &[List],
        found: &mut Untaken,
    ) -> Result<Vec<TypedList>, AllocError>
        requires { ListsNumbered self.now (lists_taken (lists_of (map list_tree lists.now)) found.old).0 }
        ensures { IfOk result (λ made. MakesTaken self.now table.old table.new
            (λ ns. lists_onto (map (list_in ns) made.items) typed.no_lists)
            found.new (lists_taken (lists_of (map list_tree lists.now)) found.old)) }
    {
        let mut made = Vec::with_capacity(self.alloc, lists.len())?;
        for list in lists {
            let kind = self.list(table, list, found)?;
            made.push(TypedList {
                place: list.place,
                kind,
            })?;
        }
        Ok(made)
    }

    /// A list behind a name.
    #[cycle(nodes)]
    fn list(
        &self,
        table: &mut TableBuilder,
        list: &List,
        found: &mut Untaken,
    ) -> Result<TypedListKind, AllocError>
        requires { ListingNumbered self.now (listing_taken (list_tree list.now) found.old).0 }
        ensures { IfOk result (λ made. MakesTaken self.now table.old table.new
            (λ ns. program.listing_view ns list.now.place made)
            found.new (listing_taken (list_tree list.now) found.old)) }
    {
        match &list.kind {
            ListKind::Actuals(actuals) => {
                Ok(TypedListKind::Actuals(self.actuals(table, actuals, found)?))
            }
            ListKind::Part(start, length) => {
                Ok(TypedListKind::Part(self.boxed(table, start, found)?, *length))
            }
        }
    }

    /// Actuals.
    #[cycle(nodes)]
    pub fn actuals(
        &self,
        table: &mut TableBuilder,
        actuals: &[Actual],
        found: &mut Untaken,
    ) -> Result<Vec<TypedActual>, AllocError>
        requires { ActualsNumbered self.now (actuals_taken (actuals_of (map actual_tree actuals.now)) found.old).0 }
        ensures { IfOk result (λ made. MakesTaken self.now table.old table.new
            (λ ns. actuals_onto (map (program.actual_view ns) made.items) typed.no_actuals)
            found.new (actuals_taken (actuals_of (map actual_tree actuals.now)) found.old)) }
    {
        let mut made = Vec::with_capacity(self.alloc, actuals.len())?;
        for actual in actuals {
            let next = self.actual(table, actual, found)?;
            made.push(next)?;
        }
        Ok(made)
    }

    /// An actual.
    #[cycle(nodes)]
    fn actual(
        &self,
        table: &mut TableBuilder,
        actual: &Actual,
        found: &mut Untaken,
    ) -> Result<TypedActual, AllocError>
        requires { ActualNumbered self.now (actual_taken (actual_tree actual.now) found.old).0 }
        ensures { IfOk result (λ made. MakesTaken self.now table.old table.new
            (λ ns. program.actual_view ns made)
            found.new (actual_taken (actual_tree actual.now) found.old)) }
    {
        match actual {
            Actual::Star(place) => Ok(TypedActual::Star(*place)),
            Actual::Phrase(phrase) => Ok(TypedActual::Phrase(self.node(table, phrase, found)?)),
        }
    }
}
