ghost use Rattle.std.specs.Prelude.{◌≡◌, ◌++◌, IfOk, OnOk, length, map};
ghost use Rattle.value_ops.specs.declared.places.Place.{Place};
ghost use Rattle.algolw_tree.specs.Grammar.{bounds_of, decls_of, items_of};
ghost use Rattle.algolw_tree.specs.Tree as kinds;
ghost use Rattle.algolw_tree.specs.View.{bound_tree, decl_tree, item_tree, procedure_tree, tree};
ghost use Rattle.algolw_typing.specs.Scopes.{Scopes};
ghost use Rattle.algolw_typing.specs.Types.{Statement};
ghost use Rattle.algolw_typing.specs.Typing as rules;
ghost use Rattle.algolw_typing.specs.Typing.{typed_bounds, typed_decl, typed_decls, typed_items, typed_kind, typed_phrase};
ghost use Rattle.algolw_typing.specs.Verdicts.{Good};
ghost use Rattle.typing_rules.specs.View as view;
ghost use Rattle.declared_names.specs.Blocks.{DeclFound, bounds_notes, bounds_view, decl_bounds, each_bounds};
ghost use Rattle.algolw_typing.specs.Naming.{NamePath, and, bounds_naming, decl_naming, decls_naming, items_naming, naming};
ghost use Rattle.block_scopes.specs.FrameView.{frame_view};
ghost use Rattle.declared_names.specs.NamesAlong.{names_along};
ghost use Rattle.typed_findings.specs.Noted.{Notes};
ghost use Rattle.phrase_checker.specs.NotedParts.{block_naming, bound_notes, each_notes, item_naming};
ghost use Rattle.phrase_checker.specs.Checked.{BoundChecked, BoundsChecked, Checked, DeclsChecked, EndChecked, ItemChecked, ItemsChecked};

use crate::checker::Checker;
use algolw_tree::{Bound, Decl, Item, Phrase, ProcDecl};
use block_scopes::{Frame, note_names};
use bumpalo::Bump;
use bumpalo::collections::into_bump_slice;
use declared_names::{
    Bounds, KnownPath, KnownScope, array, bound_verdict, class, declare, declare_labels,
    formal_scope, names_of_block, no_bounds, procedure_verdict, read_head, simple, twice,
};
use std::alloc::AllocError;
use typed_findings::Log;
use typed_phrases::{has_labels, item_verdict, then_item};
use typing_rules::{PhraseType, Verdict};

/// Blocks, their declarations and their items.
impl<'a> Checker<'a> {
    /// Checks a block.
    #[cycle(phrases)]
    pub(crate) fn block<'t>(
        &mut self,
        frame: Frame,
        path: &KnownPath<'_, 't, 'a>,
        decls: &'t [Decl],
        items: &'t [Item],
    ) -> Result<Verdict<'a>, AllocError>
        ensures found { (place first : Place) → IfOk result (λ v. Checked self.old.log self.new.log (view.verdict v)
            (typed_kind path.now place first (kinds.Block (decls_of (map decl_tree decls.now)) (items_of (map item_tree items.now))))) }
        ensures notes { OnOk result (Notes self.old.log self.new.log
            (block_naming (frame_view frame) (names_along path.now) (decls_of (map decl_tree decls.now)) (items_of (map item_tree items.now)))) }
    {
        let names = names_of_block(self.alloc, decls, items)?;
        twice(&names, &mut self.log.faults)?;
        let within = note_names(&mut self.log.names, frame, names.names())?;
        let mut scope = KnownScope::new(self.alloc);
        let bounds = self.meanings(
            within,
            path,
            &KnownPath::inner(&names, &*path),
            decls,
            &mut scope,
        )?;
        drop(names);
        declare_labels(items, &mut scope)?;
        let inner = KnownPath::inner(&scope, &*path);
        self.decls(within, &inner, decls, bounds)?;
        self.items(within, &inner, items)
    }

    /// Checks the declarations of a block as far as their names ask for it: what the block declares, and the bounds of each
    /// declaration, with what is found in them.
    #[cycle(phrases)]
    fn meanings<'t>(
        &mut self,
        frame: Frame,
        path: &KnownPath<'_, 't, 'a>,
        names: &KnownPath<'_, 't, 'a>,
        decls: &'t [Decl],
        scope: &mut KnownScope<'t, 'a>,
    ) -> Result<&'a [Bounds<'a>], AllocError>
        ensures log { OnOk result (self.new.log ≡ self.old.log) }
        ensures scope { OnOk result (scope.new ≡ scope.old ++
            rules.meanings path.now names.now (decls_of (map decl_tree decls.now))) }
        ensures bounds { IfOk result (λ bs. map bounds_view bs.now ≡ each_bounds path.now (map decl_tree decls.now)) }
        ensures notes { IfOk result (λ bs. map bounds_notes bs.now ≡ each_notes (frame_view frame) (names_along path.now) (map decl_tree decls.now)) }
    {
        let mut found = Vec::with_capacity(self.arena, decls.len())?;
        for decl in decls {
            let bounds = self.decl_bounds(frame, path, decl)?;
            declare(self.alloc, self.arena, names, decl, bounds, scope)?;
            found.push(bounds)?;
        }
        Ok(into_bump_slice(found))
    }

    /// Checks the bounds of a declaration, which none but an array's has, and keeps what is found in them.
    #[cycle(phrases)]
    fn decl_bounds<'t>(
        &mut self,
        frame: Frame,
        path: &KnownPath<'_, 't, 'a>,
        decl: &'t Decl,
    ) -> Result<Bounds<'a>, AllocError>
        ensures log { OnOk result (self.new.log ≡ self.old.log) }
        ensures bounds { IfOk result (λ b. bounds_view b ≡ decl_bounds path.now (decl_tree decl.now)) }
        ensures notes { IfOk result (λ b. bounds_notes b ≡ bound_notes (frame_view frame) (names_along path.now) (decl_tree decl.now)) }
    {
        let Decl::Array(_, _, bounds) = decl else {
            return Ok(no_bounds());
        };
        let before = std::mem::replace(&mut self.log, Log::new(self.alloc));
        self.bounds(frame, path, bounds)?;
        let found = std::mem::replace(&mut self.log, before);
        kept(self.arena, &found)
    }

    /// Checks bounds.
    #[cycle(phrases)]
    fn bounds<'t>(
        &mut self,
        frame: Frame,
        path: &KnownPath<'_, 't, 'a>,
        bounds: &'t [Bound],
    ) -> Result<(), AllocError>
        ensures found { OnOk result (BoundsChecked self.old.log self.new.log
            (typed_bounds path.now (bounds_of (map bound_tree bounds.now)))) }
        ensures notes { OnOk result (Notes self.old.log self.new.log
            (bounds_naming (frame_view frame) (names_along path.now) (bounds_of (map bound_tree bounds.now)))) }
    {
        for bound in bounds {
            self.bound(frame, path, bound)?;
        }
        Ok(())
    }

    /// Checks the bounds of a dimension.
    #[cycle(phrases)]
    fn bound<'t>(
        &mut self,
        frame: Frame,
        path: &KnownPath<'_, 't, 'a>,
        bound: &'t Bound,
    ) -> Result<(), AllocError>
        ensures found { OnOk result (BoundChecked self.old.log self.new.log bound.now.place
            (typed_phrase path.now (tree bound.now.lower))
            (typed_phrase path.now (tree bound.now.upper))) }
        ensures notes { OnOk result (Notes self.old.log self.new.log
            (and (naming (frame_view frame) (names_along path.now) (tree bound.now.lower)) (naming (frame_view frame) (names_along path.now) (tree bound.now.upper)))) }
    {
        let (lower, upper) = self.pair(frame, path, &bound.lower, &bound.upper)?;
        self.note(bound_verdict(bound.place, lower, upper))
    }

    /// Checks the declarations of a block, of which these bounds are checked.
    #[cycle(phrases)]
    fn decls<'t>(
        &mut self,
        frame: Frame,
        path: &KnownPath<'_, 't, 'a>,
        decls: &'t [Decl],
        bounds: &[Bounds<'a>],
    ) -> Result<(), AllocError>
        requires { length bounds.now ≡ length decls.now }
        ensures found { (around : Scopes) → map bounds_view bounds.now ≡ each_bounds around (map decl_tree decls.now) →
            OnOk result (DeclsChecked self.old.log self.new.log
            (typed_decls around path.now (decls_of (map decl_tree decls.now)))) }
        ensures notes { (around : NamePath) → map bounds_notes bounds.now ≡ each_notes (frame_view frame) around (map decl_tree decls.now) →
            OnOk result (Notes self.old.log self.new.log
            (decls_naming (frame_view frame) around (names_along path.now) (decls_of (map decl_tree decls.now)))) }
    {
        for (position, decl) in decls.iter().enumerate() {
            self.decl(frame, path, decl, bounds[position])?;
        }
        Ok(())
    }

    /// Checks a declaration, of which these bounds are checked.
    #[cycle(phrases)]
    fn decl<'t>(
        &mut self,
        frame: Frame,
        path: &KnownPath<'_, 't, 'a>,
        decl: &'t Decl,
        bounds: Bounds<'a>,
    ) -> Result<(), AllocError>
        ensures found { (around : Scopes) → bounds_view bounds.entry ≡ decl_bounds around (decl_tree decl.now) →
            OnOk result (DeclFound self.old.log self.new.log (typed_decl around path.now (decl_tree decl.now))) }
        ensures notes { (around : NamePath) → bounds_notes bounds.entry ≡ bound_notes (frame_view frame) around (decl_tree decl.now) →
            OnOk result (Notes self.old.log self.new.log
            (decl_naming (frame_view frame) around (names_along path.now) (decl_tree decl.now))) }
    {
        match decl {
            Decl::Simple(spec, _) => simple(self.arena, path, spec, &mut self.log),
            Decl::Array(spec, names, sizes) => array(
                self.arena,
                path,
                spec,
                names,
                sizes.len(),
                bounds,
                &mut self.log,
            ),
            Decl::Proc(procedure) => self.procedure(frame, path, procedure),
            Decl::Class(declared) => class(self.alloc, self.arena, path, declared, &mut self.log),
        }
    }

    /// Checks a procedure.
    #[cycle(phrases)]
    fn procedure<'t>(
        &mut self,
        frame: Frame,
        path: &KnownPath<'_, 't, 'a>,
        declared: &'t ProcDecl,
    ) -> Result<(), AllocError>
        ensures found { (around : Scopes) → OnOk result (DeclFound self.old.log self.new.log
            (typed_decl around path.now (procedure_tree declared.now))) }
        ensures notes { (around : NamePath) → OnOk result (Notes self.old.log self.new.log
            (decl_naming (frame_view frame) around (names_along path.now) (procedure_tree declared.now))) }
    {
        let head = read_head(
            self.arena,
            path,
            &declared.result,
            &declared.formals,
            &mut self.log,
        )?;
        let formals = formal_scope(self.alloc, self.arena, path, &declared.formals)?;
        twice(&formals, &mut self.log.faults)?;
        let within = note_names(&mut self.log.names, frame.of_procedure()?, formals.names())?;
        let body = self.phrase(within, &KnownPath::inner(&formals, &*path), &declared.body)?;
        self.note(procedure_verdict(declared.place, head, body))
    }

    /// Checks the items of a block.
    #[cycle(phrases)]
    fn items<'t>(
        &mut self,
        frame: Frame,
        path: &KnownPath<'_, 't, 'a>,
        items: &'t [Item],
    ) -> Result<Verdict<'a>, AllocError>
        ensures found { IfOk result (λ v. ItemsChecked self.old.log self.new.log (view.verdict v)
            (typed_items path.now (Good Statement) (items_of (map item_tree items.now)))) }
        ensures notes { OnOk result (Notes self.old.log self.new.log
            (items_naming (frame_view frame) (names_along path.now) (items_of (map item_tree items.now)))) }
    {
        let mut verdict = Ok(PhraseType::Statement);
        for (position, item) in items.iter().enumerate() {
            let is_last = position + 1 == items.len();
            let item = self.item(frame, path, is_last, item)?;
            verdict = then_item(verdict, item);
        }
        Ok(verdict)
    }

    /// Checks an item of a block.
    #[cycle(phrases)]
    fn item<'t>(
        &mut self,
        frame: Frame,
        path: &KnownPath<'_, 't, 'a>,
        is_last: bool,
        item: &'t Item,
    ) -> Result<Verdict<'a>, AllocError>
        ensures found { IfOk result (λ v. ItemChecked path.now is_last self.old.log self.new.log
            (view.verdict v) (item_tree item.now)) }
        ensures notes { OnOk result (Notes self.old.log self.new.log
            (item_naming (frame_view frame) (names_along path.now) (item_tree item.now))) }
    {
        match item {
            Item::Empty(_) => Ok(Ok(PhraseType::Statement)),
            Item::Plain(phrase) => self.item_phrase(frame, path, is_last, false, phrase),
            Item::Labelled(item) => {
                let is_labelled = has_labels(&item.labels);
                self.item_phrase(frame, path, is_last, is_labelled, &item.phrase)
            }
        }
    }

    /// Checks the phrase of an item, and gives the verdict of the item.
    #[cycle(phrases)]
    fn item_phrase<'t>(
        &mut self,
        frame: Frame,
        path: &KnownPath<'_, 't, 'a>,
        is_last: bool,
        is_labelled: bool,
        phrase: &'t Phrase,
    ) -> Result<Verdict<'a>, AllocError>
        ensures found { IfOk result (λ v. EndChecked self.old.log self.new.log (view.verdict v) is_last is_labelled
            phrase.now.first (typed_phrase path.now (tree phrase.now))) }
        ensures notes { OnOk result (Notes self.old.log self.new.log
            (naming (frame_view frame) (names_along path.now) (tree phrase.now))) }
    {
        let found = self.phrase(frame, path, phrase)?;
        let verdict = item_verdict(is_last, is_labelled, phrase.first, found);
        self.note(verdict)?;
        Ok(verdict)
    }
}

/// What is found of bounds, kept in the arena.
fn kept<'a>(arena: &'a Bump, found: &Log<'a>) -> Result<Bounds<'a>, AllocError>
    ensures faults { IfOk result (λ bounds. bounds.faults.now ≡ found.now.faults.items) }
    ensures findings { IfOk result (λ bounds. bounds.findings.now ≡ found.now.findings.items) }
    ensures names { IfOk result (λ bounds. bounds.names.now ≡ found.now.names.items) }
    ensures classes { IfOk result (λ bounds. bounds.classes.now ≡ found.now.classes.items) }
{
    Ok(Bounds {
        faults: arena.try_alloc_slice_copy(&found.faults)?,
        findings: arena.try_alloc_slice_copy(&found.findings)?,
        names: arena.try_alloc_slice_copy(&found.names)?,
        classes: arena.try_alloc_slice_copy(&found.classes)?,
    })
}
