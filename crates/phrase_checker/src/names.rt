ghost use Rattle.std.specs.Prelude as std;
ghost use Rattle.std.specs.Prelude.{◌≡◌, ℕ, ◌∷◌, [], IfOk, OnOk, false, map};
ghost use Rattle.std.specs.Option.{option_map};
ghost use Rattle.algolw_tree.specs.Grammar.{actuals_of, lists_of};
ghost use Rattle.algolw_tree.specs.Tree as kinds;
ghost use Rattle.algolw_tree.specs.View.{actual_tree, applied_tree, list_tree, tree};
ghost use Rattle.algolw_typing.specs.Names.{declared};
ghost use Rattle.algolw_typing.specs.Typing as rules;
ghost use Rattle.algolw_typing.specs.Typing.{typed_kind, typed_parts, typed_phrase};
ghost use Rattle.declared_names.specs.KnownView.{entry_of};
ghost use Rattle.typing_rules.specs.MeaningView as meaning_view;
ghost use Rattle.typing_rules.specs.View as view;
ghost use Rattle.typed_findings.specs.Findings.{Name};
ghost use Rattle.typed_phrases.specs.Applications.{Applies};
ghost use Rattle.typed_phrases.specs.Fronts.{actual_step, list_step};
ghost use Rattle.typed_phrases.specs.FrontViews.{front_view};
ghost use Rattle.typed_phrases.specs.Settings.{sets_width};
ghost use Rattle.algolw_typing.specs.Naming.{actuals_naming, kind_naming, lists_naming, naming, nothing};
ghost use Rattle.block_scopes.specs.FrameView.{frame_view};
ghost use Rattle.declared_names.specs.NamesAlong.{names_along};
ghost use Rattle.typed_findings.specs.Noted.{Notes};
ghost use Rattle.phrase_checker.specs.NotedParts.{actual_naming, listing_naming};
ghost use Rattle.phrase_checker.specs.Checked.{ActualChecked, Adds, ApplicationChecked, Checked, GivenChecked, ListChecked, PartsChecked};

use crate::checker::Checker;
use algolw_tree::{Actual, Applied, List, ListKind, Phrase, Spelling};
use block_scopes::Frame;
use declared_names::{Known, KnownPath, meaning_of, place_of};
use std::alloc::AllocError;
use typed_findings::Finding;
use typed_phrases::{
    Application, Front, Given, goto_verdict, is_setting, list_given, read, setting_part,
};
use typing_rules::{Part, Reading, Verdict, Wanted};
use value_ops::Place;

/// Names, and the lists behind them.
impl<'a> Checker<'a> {
    /// Looks a name up, and adds where it is declared.
    pub(crate) fn target(
        &mut self,
        path: &KnownPath<'_, '_, 'a>,
        name: &Spelling,
    ) -> Result<Option<Known<'a>>, AllocError>
        ensures target { IfOk result (λ known. option_map (entry_of name.now) known ≡ declared path.now name.now) }
        ensures added { OnOk result (Adds self.old.log self.new.log [] (Name (rules.target (declared path.now name.now)) ∷ [])) }
        ensures notes { OnOk result (Notes self.old.log self.new.log nothing) }
    {
        let target = path.declared(name);
        self.log.add(Finding::Name(place_of(target)))?;
        Ok(target)
    }

    /// Checks a GOTO.
    pub(crate) fn jump(
        &mut self,
        path: &KnownPath<'_, '_, 'a>,
        place: Place,
        name: &Spelling,
    ) -> Result<Verdict<'a>, AllocError>
        ensures found { (first : Place) → IfOk result (λ v. Checked self.old.log self.new.log (view.verdict v)
            (typed_kind path.now place first (kinds.Goto name.now))) }
        ensures notes { OnOk result (Notes self.old.log self.new.log nothing) }
    {
        let target = self.target(path, name)?;
        Ok(goto_verdict(place, target))
    }

    /// Checks a name without lists behind it.
    pub(crate) fn name_alone(
        &mut self,
        path: &KnownPath<'_, '_, 'a>,
        place: Place,
        name: &Spelling,
    ) -> Result<Verdict<'a>, AllocError>
        ensures found { (first : Place) → IfOk result (λ v. Checked self.old.log self.new.log (view.verdict v)
            (typed_kind path.now place first (kinds.Named name.now kinds.no_lists))) }
        ensures notes { OnOk result (Notes self.old.log self.new.log nothing) }
    {
        let target = self.target(path, name)?;
        Front::Name(place, target).alone(self.arena)
    }

    /// Checks a name and the lists behind it.
    #[cycle(phrases)]
    pub(crate) fn named<'t>(
        &mut self,
        frame: Frame,
        path: &KnownPath<'_, 't, 'a>,
        place: Place,
        name: &Spelling,
        lists: &'t [List],
    ) -> Result<Verdict<'a>, AllocError>
        ensures found { (first : Place) → IfOk result (λ v. Checked self.old.log self.new.log (view.verdict v)
            (typed_kind path.now place first (kinds.Named name.now (lists_of (map list_tree lists.now))))) }
        ensures notes { OnOk result (Notes self.old.log self.new.log
            (lists_naming (frame_view frame) (names_along path.now) (lists_of (map list_tree lists.now)))) }
    {
        let target = self.target(path, name)?;
        let mut front = Front::Name(place, target);
        for list in lists {
            let verdict = self.list(frame, path, front, list)?;
            front = Front::Complete(verdict);
        }
        front.alone(self.arena)
    }

    /// Checks one of the lists behind a name, and what stands before it with it.
    #[cycle(phrases)]
    fn list<'t>(
        &mut self,
        frame: Frame,
        path: &KnownPath<'_, 't, 'a>,
        front: Front<'a>,
        list: &'t List,
    ) -> Result<Verdict<'a>, AllocError>
        ensures found { (x : std.List ℕ) → IfOk result (λ v. ListChecked self.old.log self.new.log (view.verdict v)
            (list_step path.now (front_view x front.entry) (list_tree list.now))) }
        ensures notes { OnOk result (Notes self.old.log self.new.log
            (listing_naming (frame_view frame) (names_along path.now) (list_tree list.now))) }
    {
        match &list.kind {
            ListKind::Actuals(actuals) => {
                let parts = self.parts(frame, path, front.reading(), actuals)?;
                front.with_list(self.arena, list.place, &parts)
            }
            ListKind::Part(start, length) => {
                let start = self.phrase(frame, path, start)?;
                Ok(front.with_part(list.place, start, *length))
            }
        }
    }

    /// Checks a short name and the one list of actuals behind it.
    #[cycle(phrases)]
    pub(crate) fn applied<'t>(
        &mut self,
        frame: Frame,
        path: &KnownPath<'_, 't, 'a>,
        place: Place,
        applied: &'t Applied,
    ) -> Result<Verdict<'a>, AllocError>
        ensures found { (first : Place) → IfOk result (λ v. Checked self.old.log self.new.log (view.verdict v)
            (typed_kind path.now place first (applied_tree applied.now))) }
        ensures notes { OnOk result (Notes self.old.log self.new.log
            (kind_naming (frame_view frame) (names_along path.now) place (applied_tree applied.now))) }
    {
        let application = Application::short(path, applied);
        let (verdict, _) = self.application(frame, path, place, application)?;
        Ok(verdict)
    }

    /// Checks a name and the one list of actuals behind it, and finds what the parts of the list are read as.
    #[cycle(phrases)]
    fn application<'t>(
        &mut self,
        frame: Frame,
        path: &KnownPath<'_, 't, 'a>,
        place: Place,
        application: Application<'t, 'a>,
    ) -> Result<(Verdict<'a>, Vec<Part<'a>>), AllocError>
        ensures found { (first : Place) (k : kinds.Kind) → Applies path.now k application.entry →
            IfOk result (λ both. ApplicationChecked self.old.log self.new.log (view.verdict both.0)
            (map meaning_view.part both.1.items) (typed_kind path.now place first k)) }
        ensures notes { (k : kinds.Kind) → Applies path.now k application.entry →
            OnOk result (Notes self.old.log self.new.log
            (kind_naming (frame_view frame) (names_along path.now) place k)) }
    {
        let target = application.target;
        self.log.add(Finding::Name(place_of(target)))?;
        let front = Front::Name(place, target);
        let parts = self.parts(frame, path, front.reading(), application.actuals)?;
        let verdict = front.with_list(self.arena, application.place, &parts)?;
        Ok((verdict, parts))
    }

    /// Checks the parts of a list, which are read so.
    #[cycle(phrases)]
    fn parts<'t>(
        &mut self,
        frame: Frame,
        path: &KnownPath<'_, 't, 'a>,
        reading: Reading<'a>,
        actuals: &'t [Actual],
    ) -> Result<Vec<Part<'a>>, AllocError>
        ensures found { IfOk result (λ found. PartsChecked self.old.log self.new.log (map meaning_view.part found.items)
            (typed_parts path.now (meaning_view.reading reading.entry) (actuals_of (map actual_tree actuals.now)))) }
        ensures notes { OnOk result (Notes self.old.log self.new.log
            (actuals_naming (frame_view frame) (names_along path.now) (actuals_of (map actual_tree actuals.now)))) }
    {
        let mut reading = reading;
        let mut found = Vec::with_capacity(self.alloc, actuals.len())?;
        for actual in actuals {
            let part = self.actual(frame, path, reading.wanted(), actual)?;
            found.push(part)?;
            reading = reading.behind();
        }
        Ok(found)
    }

    /// Checks a part of a list, of which this is wanted.
    #[cycle(phrases)]
    fn actual<'t>(
        &mut self,
        frame: Frame,
        path: &KnownPath<'_, 't, 'a>,
        wanted: Wanted<'a>,
        actual: &'t Actual,
    ) -> Result<Part<'a>, AllocError>
        ensures found { IfOk result (λ part. ActualChecked self.old.log self.new.log (meaning_view.part part)
            (actual_step path.now (meaning_view.wanted wanted.entry) (actual_tree actual.now))) }
        ensures notes { OnOk result (Notes self.old.log self.new.log
            (actual_naming (frame_view frame) (names_along path.now) (actual_tree actual.now))) }
    {
        match actual {
            Actual::Star(_) => Ok(Part::Star),
            Actual::Phrase(phrase) => {
                if is_setting(path, wanted, phrase) {
                    let found = self.value(frame, path, phrase)?;
                    return Ok(setting_part(found.verdict));
                }
                let given = self.given(frame, path, wanted, phrase)?;
                self.conclude(phrase, given.verdict)?;
                Ok(given.part)
            }
        }
    }

    /// Checks what is inside a phrase in a list, of which this is wanted, and how it is read. It is no setting.
    #[cycle(phrases)]
    fn given<'t>(
        &mut self,
        frame: Frame,
        path: &KnownPath<'_, 't, 'a>,
        wanted: Wanted<'a>,
        phrase: &'t Phrase,
    ) -> Result<Given<'a>, AllocError>
        requires { sets_width path.now (meaning_view.wanted wanted) (tree phrase.now) ≡ false }
        ensures found { IfOk result (λ g. GivenChecked path.now self.old.log self.new.log g
            (meaning_view.wanted wanted.entry) (tree phrase.now)) }
        ensures notes { OnOk result (Notes self.old.log self.new.log
            (naming (frame_view frame) (names_along path.now) (tree phrase.now))) }
    {
        let Some(application) = Application::of(path, phrase) else {
            let verdict = self.inside(frame, path, phrase)?;
            return Ok(read(path, wanted, phrase, verdict));
        };
        let (verdict, parts) = self.application(frame, path, phrase.place, application)?;
        let means = meaning_of(application.target);
        list_given(self.alloc, phrase.place, wanted, means, verdict, &parts)
    }
}
