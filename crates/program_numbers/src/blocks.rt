ghost use Rattle.std.specs.Prelude.{IfOk, map};
ghost use Rattle.algolw_tree.specs.Grammar.{bounds_of, decls_of, items_of};
ghost use Rattle.algolw_tree.specs.Tree as kinds;
ghost use Rattle.algolw_tree.specs.View.{bound_tree, decl_tree, item_tree, labelled_tree, procedure_tree};
ghost use Rattle.algolw_tree.specs.Wholes.{whole_tree};
ghost use Rattle.algolw_typing.specs.ProgramView as program;
ghost use Rattle.algolw_typing.specs.Typed as typed;
ghost use Rattle.program_numbers.specs.Makes.{MakesTaken};
ghost use Rattle.program_numbers.specs.Numbered.{BoundsNumbered, DeclNumbered, DeclsNumbered, ItemNumbered, ItemsNumbered, KindNumbered, NodeNumbered};
ghost use Rattle.program_numbers.specs.Onto.{bounds_onto, decls_onto, items_onto};
ghost use Rattle.program_numbers.specs.ProgramParts.{bound_in};
ghost use Rattle.program_numbers.specs.Taken.{bounds_taken, decl_taken, decls_taken, item_taken, items_taken, node_taken, taken_anywhere};

use crate::numbering::Numbering;
use crate::table_builder::TableBuilder;
use algolw_tree::{
    Bound, Decl, Item, Labelled, Node, NodeKind, ProcDecl, TypedBound, TypedDecl, TypedItem,
    TypedLabelled, TypedProc, Whole,
};
use std::alloc::AllocError;
use typed_findings::Untaken;

/// Blocks, their declarations and their items.
impl Numbering {
    /// A whole program.
    pub fn root(
        &self,
        table: &mut TableBuilder,
        root: Whole<'_>,
        found: &mut Untaken,
    ) -> Result<Node, AllocError>
        requires { NodeNumbered self.now (node_taken (whole_tree root) found.old).0 }
        ensures { IfOk result (λ made. MakesTaken self.now table.old table.new (λ ns. program.node_view ns made)
            found.new (node_taken (whole_tree root.entry) found.old)) }
    {
        let kind = self.block(table, root.decls, root.items, found)?;
        let own = found.take();
        let gives = self.gives(table, own.phrase_type())?;
        let statement = self.statement(own);
        Ok(Node {
            place: root.place,
            first: root.first,
            kind,
            gives,
            statement,
        })
    }

    /// A block.
    #[cycle(nodes)]
    pub fn block(
        &self,
        table: &mut TableBuilder,
        decls: &[Decl],
        items: &[Item],
        found: &mut Untaken,
    ) -> Result<NodeKind, AllocError>
        requires { KindNumbered self.now (taken_anywhere (kinds.Block (decls_of (map decl_tree decls.now)) (items_of (map item_tree items.now))) found.old).0 }
        ensures { IfOk result (λ made. MakesTaken self.now table.old table.new
            (λ ns. program.kind_view ns made)
            found.new (taken_anywhere (kinds.Block (decls_of (map decl_tree decls.now)) (items_of (map item_tree items.now))) found.old)) }
    {
        let decls = self.decls(table, decls, found)?;
        let items = self.items(table, items, found)?;
        Ok(NodeKind::Block(decls, items))
    }

    /// The phrases of a block.
    #[cycle(nodes)]
    fn items(
        &self,
        table: &mut TableBuilder,
        items: &[Item],
        found: &mut Untaken,
    ) -> Result<Vec<TypedItem>, AllocError>
        requires { ItemsNumbered self.now (items_taken (items_of (map item_tree items.now)) found.old).0 }
        ensures { IfOk result (λ made. MakesTaken self.now table.old table.new
            (λ ns. items_onto (map (program.item_view ns) made.items) typed.no_items)
            found.new (items_taken (items_of (map item_tree items.now)) found.old)) }
    {
        let mut made = Vec::new(self.alloc);
        for item in items {
            let next = self.item(table, item, found)?;
            made.push(next)?;
        }
        Ok(made)
    }

    /// A phrase of a block.
    #[cycle(nodes)]
    fn item(
        &self,
        table: &mut TableBuilder,
        item: &Item,
        found: &mut Untaken,
    ) -> Result<TypedItem, AllocError>
        requires { ItemNumbered self.now (item_taken (item_tree item.now) found.old).0 }
        ensures { IfOk result (λ made. MakesTaken self.now table.old table.new
            (λ ns. program.item_view ns made)
            found.new (item_taken (item_tree item.now) found.old)) }
    {
        match item {
            Item::Empty(place) => Ok(TypedItem::Empty(*place)),
            Item::Plain(phrase) => Ok(TypedItem::Plain(self.boxed(table, phrase, found)?)),
            Item::Labelled(labelled) => self.labelled(table, labelled, found),
        }
    }

    /// A phrase behind its labels.
    #[cycle(nodes)]
    fn labelled(
        &self,
        table: &mut TableBuilder,
        labelled: &Labelled,
        found: &mut Untaken,
    ) -> Result<TypedItem, AllocError>
        requires { ItemNumbered self.now (item_taken (labelled_tree labelled.now) found.old).0 }
        ensures { IfOk result (λ made. MakesTaken self.now table.old table.new
            (λ ns. program.item_view ns made)
            found.new (item_taken (labelled_tree labelled.now) found.old)) }
    {
        let labels = self.targets(&labelled.labels)?;
        let phrase = self.boxed(table, &labelled.phrase, found)?;
        let item = Box::new(self.alloc, TypedLabelled { labels, phrase })?;
        Ok(TypedItem::Labelled(item))
    }

    /// The bounds of arrays.
    #[cycle(nodes)]
    fn bounds(
        &self,
        table: &mut TableBuilder,
        bounds: &[Bound],
        found: &mut Untaken,
    ) -> Result<Vec<TypedBound>, AllocError>
        requires { BoundsNumbered self.now (bounds_taken (bounds_of (map bound_tree bounds.now)) found.old).0 }
        ensures { IfOk result (λ made. MakesTaken self.now table.old table.new
            (λ ns. bounds_onto (map (bound_in ns) made.items) typed.no_bounds)
            found.new (bounds_taken (bounds_of (map bound_tree bounds.now)) found.old)) }
    {
        let mut made = Vec::new(self.alloc);
        for bound in bounds {
            let lower = self.node(table, &bound.lower, found)?;
            let upper = self.node(table, &bound.upper, found)?;
            made.push(TypedBound {
                place: bound.place,
                lower,
                upper,
            })?;
        }
        Ok(made)
    }

    /// Declarations.
    #[cycle(nodes)]
    fn decls(
        &self,
        table: &mut TableBuilder,
        decls: &[Decl],
        found: &mut Untaken,
    ) -> Result<Vec<TypedDecl>, AllocError>
        requires { DeclsNumbered self.now (decls_taken (decls_of (map decl_tree decls.now)) found.old).0 }
        ensures { IfOk result (λ made. MakesTaken self.now table.old table.new
            (λ ns. decls_onto (map (program.decl_view ns) made.items) typed.no_decls)
            found.new (decls_taken (decls_of (map decl_tree decls.now)) found.old)) }
    {
        let mut made = Vec::new(self.alloc);
        for decl in decls {
            let next = self.decl(table, decl, found)?;
            made.push(next)?;
        }
        Ok(made)
    }

    /// A declaration.
    #[cycle(nodes)]
    fn decl(
        &self,
        table: &mut TableBuilder,
        decl: &Decl,
        found: &mut Untaken,
    ) -> Result<TypedDecl, AllocError>
        requires { DeclNumbered self.now (decl_taken (decl_tree decl.now) found.old).0 }
        ensures { IfOk result (λ made. MakesTaken self.now table.old table.new
            (λ ns. program.decl_view ns made)
            found.new (decl_taken (decl_tree decl.now) found.old)) }
    {
        match decl {
            Decl::Simple(_, names) => {
                let of = self.simple_type(table, found.take_simple_type())?;
                let names = self.targets(names)?;
                Ok(TypedDecl::Simple(of, names))
            }
            Decl::Array(_, names, bounds) => {
                let of = self.simple_type(table, found.take_simple_type())?;
                let names = self.targets(names)?;
                let bounds = self.bounds(table, bounds, found)?;
                Ok(TypedDecl::Array(of, names, bounds))
            }
            Decl::Proc(procedure) => {
                Ok(TypedDecl::Proc(self.procedure(table, procedure, found)?))
            }
            Decl::Class(class) => Ok(TypedDecl::Class(self.class_decl(table, class, found)?)),
        }
    }

    /// A procedure.
    #[cycle(nodes)]
    fn procedure(
        &self,
        table: &mut TableBuilder,
        procedure: &ProcDecl,
        found: &mut Untaken,
    ) -> Result<TypedProc, AllocError>
        requires { DeclNumbered self.now (decl_taken (procedure_tree procedure.now) found.old).0 }
        ensures { IfOk result (λ made. MakesTaken self.now table.old table.new
            (λ ns. program.procedure_view ns made)
            found.new (decl_taken (procedure_tree procedure.now) found.old)) }
    {
        let result = self.perhaps_type(table, found.take_type())?;
        let formals = self.formals(table, &procedure.formals, found)?;
        let body = self.boxed(table, &procedure.body, found)?;
        let place = procedure.name.1;
        let name = (self.names.number(place), place);
        Ok(TypedProc {
            place: procedure.place,
            result,
            name,
            formals,
            body,
        })
    }
}
