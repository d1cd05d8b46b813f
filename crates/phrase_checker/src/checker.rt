ghost use Rattle.std.specs.Prelude.{◌≡◌, ◌∷◌, [], IfOk, OnOk, length, map};
ghost use Rattle.std.specs.Option.{option_map};
ghost use Rattle.algolw_tree.specs.Grammar.{links_of, phrases_of};
ghost use Rattle.algolw_tree.specs.Tree as kinds;
ghost use Rattle.algolw_tree.specs.View.{assignment_tree, link_tree, optional_tree, part_tree, relation_tree, repetition_tree, tree};
ghost use Rattle.algolw_tree.specs.Wholes.{whole_tree};
ghost use Rattle.algolw_typing.specs.Scopes as scopes;
ghost use Rattle.algolw_typing.specs.Typing.{typed_kind, typed_links, typed_phrase, typed_phrases};
ghost use Rattle.algolw_typing.specs.Types.{Simple, Str};
ghost use Rattle.algolw_typing.specs.Verdicts.{Good, fault_of};
ghost use Rattle.typing_rules.specs.View as view;
ghost use Rattle.typed_findings.specs.Findings.{own_finding};
ghost use Rattle.typed_phrases.specs.FoundParts.{all_view, given_view};
ghost use Rattle.typed_phrases.specs.Prefixes as prefixes;
ghost use Rattle.algolw_typing.specs.Naming.{and, kind_naming, links_naming, naming, nothing, perhaps_naming, phrases_naming, scope_of};
ghost use Rattle.block_scopes.specs.FrameView.{frame_view};
ghost use Rattle.declared_names.specs.NamesAlong.{names_along};
ghost use Rattle.typed_findings.specs.Noted.{Notes};
ghost use Rattle.phrase_checker.specs.Checked.{Adds, AssignmentChecked, CasesChecked, Checked, LinksChecked, Noted, PairChecked, PhrasesChecked, RangeChecked, StepChecked, ValueChecked, found_itself};

use algolw_tree::{Assignment, Kind, Link, Part, Phrase, Relation, Repetition, Spelling, Whole};
use block_scopes::{Frame, note_control};
use bumpalo::Bump;
use declared_names::{KnownPath, class_fault};
use std::alloc::{AllocError, Global};
use typed_findings::{Finding, Log};
use typed_phrases::{
    Phrases, Prefix, Range, assigned_verdict, both_give, case_do_verdict, case_value_verdict,
    for_list_verdict, given, if_else_verdict, if_verdict, is_verdict, left_of, linked, noted,
    prefixed_verdict, range_verdict, relation_verdict, while_verdict,
};
use typing_rules::{ClassSet, NoType, PhraseType, ValueType, Verdict};
use value_ops::Place;

/// Checks the phrases of a program.
#[derive(Drop)]
pub(crate) struct Checker<'a> {
    pub(crate) alloc: Global,
    pub(crate) arena: &'a Bump,
    /// What was found: the faults in the order of the rules.
    pub(crate) log: Log<'a>,
}

/// What is found of an assignment, or of the value of one.
#[derive(Clone, Copy)]
pub(crate) struct Assigned<'a> {
    /// Its type, or why it has none.
    pub(crate) verdict: Verdict<'a>,
    /// What the value at the right end of its assignments gives: where it is none itself, what it gives.
    pub(crate) end: Option<PhraseType<'a>>,
}

impl<'a> Checker<'a> {
    /// Adds the fault of a verdict.
    pub(crate) fn note(&mut self, verdict: Verdict) -> Result<(), AllocError>
        ensures found { OnOk result (Adds self.old.log self.new.log (fault_of (view.verdict verdict.entry)) []) }
        ensures notes { OnOk result (Notes self.old.log self.new.log nothing) }
    {
        if let Err(NoType::Fault(fault)) = verdict {
            self.log.faults.push(fault)?;
        }
        Ok(())
    }

    /// Adds what is found by its verdict of a phrase that isn't empty and begins here: its fault, and what it gives.
    fn found(&mut self, first: Place, verdict: Verdict<'a>) -> Result<(), AllocError>
        ensures found { OnOk result (Adds self.old.log self.new.log (fault_of (view.verdict verdict.entry))
            (own_finding first (view.verdict verdict.entry) ∷ [])) }
        ensures notes { OnOk result (Notes self.old.log self.new.log nothing) }
    {
        self.note(verdict)?;
        self.log.add(Finding::of_phrase(first, verdict))
    }

    /// Adds what is found of a phrase itself by its verdict: its fault, and what it gives, which isn't said of an empty one.
    pub(crate) fn conclude(
        &mut self,
        phrase: &Phrase,
        verdict: Verdict<'a>,
    ) -> Result<(), AllocError>
        ensures found { OnOk result (Adds self.old.log self.new.log (fault_of (view.verdict verdict.entry))
            (found_itself (tree phrase.now) (view.verdict verdict.entry))) }
        ensures notes { OnOk result (Notes self.old.log self.new.log nothing) }
    {
        match phrase.kind {
            Kind::Empty => self.note(verdict),
            _ => self.found(phrase.first, verdict),
        }
    }

    /// Checks a whole program.
    pub(crate) fn root<'t>(
        &mut self,
        frame: Frame,
        path: &KnownPath<'_, 't, 'a>,
        root: Whole<'t>,
    ) -> Result<Verdict<'a>, AllocError>
        ensures found { IfOk result (λ v. Noted self.old.log self.new.log (view.verdict v)
            (typed_phrase path.now (whole_tree root.entry))) }
        ensures notes { OnOk result (Notes self.old.log self.new.log
            (naming (frame_view frame) (names_along path.now) (whole_tree root.entry))) }
    {
        let verdict = self.block(frame, path, root.decls, root.items)?;
        self.found(root.first, verdict)?;
        Ok(verdict)
    }

    /// Checks a phrase.
    #[cycle(phrases)]
    pub(crate) fn phrase<'t>(
        &mut self,
        frame: Frame,
        path: &KnownPath<'_, 't, 'a>,
        phrase: &'t Phrase,
    ) -> Result<Verdict<'a>, AllocError>
        ensures found { IfOk result (λ v. Noted self.old.log self.new.log (view.verdict v)
            (typed_phrase path.now (tree phrase.now))) }
        ensures notes { OnOk result (Notes self.old.log self.new.log
            (naming (frame_view frame) (names_along path.now) (tree phrase.now))) }
    {
        let verdict = self.inside(frame, path, phrase)?;
        self.conclude(phrase, verdict)?;
        Ok(verdict)
    }

    /// Checks what is inside a phrase: the verdict of the phrase itself is still to be added.
    #[cycle(phrases)]
    pub(crate) fn inside<'t>(
        &mut self,
        frame: Frame,
        path: &KnownPath<'_, 't, 'a>,
        phrase: &'t Phrase,
    ) -> Result<Verdict<'a>, AllocError>
        ensures found { IfOk result (λ v. Checked self.old.log self.new.log (view.verdict v)
            (typed_phrase path.now (tree phrase.now))) }
        ensures notes { OnOk result (Notes self.old.log self.new.log
            (naming (frame_view frame) (names_along path.now) (tree phrase.now))) }
    {
        let place = phrase.place;
        match &phrase.kind {
            Kind::Empty => Ok(Ok(PhraseType::Statement)),
            Kind::Null => leaf(ValueType::Reference(ClassSet::none())),
            Kind::Number(_) => leaf(ValueType::Integer),
            Kind::Truth(_) => leaf(ValueType::Logical),
            Kind::BitsLit(_) => leaf(ValueType::Bits),
            Kind::Quoted(text) => quoted(text.as_slice()),
            Kind::Negated(operand) => self.prefixed(frame, path, place, Prefix::Not, operand),
            Kind::Abs(operand) => self.prefixed(frame, path, place, Prefix::Abs, operand),
            Kind::Signed(minus, operand) => {
                self.prefixed(frame, path, place, Prefix::Sign(*minus), operand)
            }
            Kind::Assert(condition) => self.prefixed(frame, path, place, Prefix::Assert, condition),
            Kind::Chain(chain) => self.chain(frame, path, &chain.first, &chain.links),
            Kind::Relation(relation) => self.relation(frame, path, place, relation),
            Kind::IfThen(choice) => self.conditional(
                frame,
                path,
                place,
                &choice.condition,
                &choice.then,
                &choice.otherwise,
            ),
            Kind::CaseValue(case) => self.case_value(
                frame,
                path,
                place,
                &case.selector,
                &case.values,
            ),
            Kind::CaseDo(case) => self.case_do(frame, path, place, &case.selector, &case.parts),
            Kind::WhileDo(repetition) => self.while_do(frame, path, place, repetition),
            Kind::Goto(name) => self.jump(path, place, name),
            Kind::IsClass(test) => self.is_class(frame, path, place, &test.reference, &test.class),
            Kind::Assign(assignment) => self.assign(frame, path, place, assignment),
            Kind::ForStep(turns) => self.for_range(
                frame,
                path,
                place,
                &turns.name,
                &turns.start,
                &turns.step,
                &turns.limit,
                &turns.body,
            ),
            Kind::ForList(turns) => {
                self.for_list(frame, path, place, &turns.name, &turns.values, &turns.body)
            }
            Kind::Named(name) => self.name_alone(path, place, &name.spelling()),
            Kind::Applied(applied) => self.applied(frame, path, place, applied),
            Kind::Listed(listed) => self.named(frame, path, place, &listed.name, &listed.lists),
            Kind::Block(block) => self.block(frame, path, &block.decls, &block.items),
        }
    }

    /// Checks two phrases, the one behind the other.
    #[cycle(phrases)]
    pub(crate) fn pair<'t>(
        &mut self,
        frame: Frame,
        path: &KnownPath<'_, 't, 'a>,
        first: &'t Phrase,
        second: &'t Phrase,
    ) -> Result<(Verdict<'a>, Verdict<'a>), AllocError>
        ensures found { IfOk result (λ both. PairChecked path.now self.old.log self.new.log
            (view.verdict both.0) (view.verdict both.1) (tree first.now) (tree second.now)) }
        ensures notes { OnOk result (Notes self.old.log self.new.log
            (and (naming (frame_view frame) (names_along path.now) (tree first.now)) (naming (frame_view frame) (names_along path.now) (tree second.now)))) }
    {
        let first = self.phrase(frame, path, first)?;
        let second = self.phrase(frame, path, second)?;
        Ok((first, second))
    }

    /// Checks an operand and what stands before it.
    #[cycle(phrases)]
    fn prefixed<'t>(
        &mut self,
        frame: Frame,
        path: &KnownPath<'_, 't, 'a>,
        place: Place,
        prefix: Prefix,
        operand: &'t Phrase,
    ) -> Result<Verdict<'a>, AllocError>
        ensures found { (first : Place) → IfOk result (λ v. Checked self.old.log self.new.log (view.verdict v)
            (typed_kind path.now place first (prefixes.prefixed prefix (tree operand.now)))) }
        ensures notes { OnOk result (Notes self.old.log self.new.log
            (naming (frame_view frame) (names_along path.now) (tree operand.now))) }
    {
        let operand = self.phrase(frame, path, operand)?;
        Ok(prefixed_verdict(place, prefix, operand))
    }

    /// Checks a comparison.
    #[cycle(phrases)]
    fn relation<'t>(
        &mut self,
        frame: Frame,
        path: &KnownPath<'_, 't, 'a>,
        place: Place,
        comparison: &'t Relation,
    ) -> Result<Verdict<'a>, AllocError>
        ensures found { (first : Place) → IfOk result (λ v. Checked self.old.log self.new.log (view.verdict v)
            (typed_kind path.now place first (relation_tree comparison.now))) }
        ensures notes { OnOk result (Notes self.old.log self.new.log
            (kind_naming (frame_view frame) (names_along path.now) place (relation_tree comparison.now))) }
    {
        let (left, right) = self.pair(frame, path, &comparison.left, &comparison.right)?;
        Ok(relation_verdict(place, comparison.op, left, right))
    }

    /// Checks a WHILE.
    #[cycle(phrases)]
    fn while_do<'t>(
        &mut self,
        frame: Frame,
        path: &KnownPath<'_, 't, 'a>,
        place: Place,
        repetition: &'t Repetition,
    ) -> Result<Verdict<'a>, AllocError>
        ensures found { (first : Place) → IfOk result (λ v. Checked self.old.log self.new.log (view.verdict v)
            (typed_kind path.now place first (repetition_tree repetition.now))) }
        ensures notes { OnOk result (Notes self.old.log self.new.log
            (kind_naming (frame_view frame) (names_along path.now) place (repetition_tree repetition.now))) }
    {
        let (condition, body) = self.pair(frame, path, &repetition.condition, &repetition.body)?;
        Ok(while_verdict(place, condition, body))
    }

    /// Checks an IF.
    #[cycle(phrases)]
    fn conditional<'t>(
        &mut self,
        frame: Frame,
        path: &KnownPath<'_, 't, 'a>,
        place: Place,
        condition: &'t Phrase,
        then: &'t Phrase,
        otherwise: &'t Option<Box<Phrase>>,
    ) -> Result<Verdict<'a>, AllocError>
        ensures found { (first : Place) → IfOk result (λ v. Checked self.old.log self.new.log (view.verdict v)
            (typed_kind path.now place first (kinds.IfThen (tree condition.now) (tree then.now) (optional_tree otherwise.now)))) }
        ensures notes { OnOk result (Notes self.old.log self.new.log
            (kind_naming (frame_view frame) (names_along path.now) place (kinds.IfThen (tree condition.now) (tree then.now) (optional_tree otherwise.now)))) }
    {
        let (condition, then) = self.pair(frame, path, condition, then)?;
        let Some(otherwise) = otherwise else {
            return Ok(if_verdict(place, condition, then));
        };
        let otherwise = self.phrase(frame, path, otherwise)?;
        if_else_verdict(self.arena, place, condition, then, otherwise)
    }

    /// Checks a chain.
    #[cycle(phrases)]
    fn chain<'t>(
        &mut self,
        frame: Frame,
        path: &KnownPath<'_, 't, 'a>,
        first: &'t Phrase,
        links: &'t [Link],
    ) -> Result<Verdict<'a>, AllocError>
        ensures found { (place token : Place) → IfOk result (λ v. Checked self.old.log self.new.log (view.verdict v)
            (typed_kind path.now place token (kinds.Chain (tree first.now) (links_of (map link_tree links.now))))) }
        ensures notes { OnOk result (Notes self.old.log self.new.log
            (and (naming (frame_view frame) (names_along path.now) (tree first.now)) (links_naming (frame_view frame) (names_along path.now) (links_of (map link_tree links.now))))) }
    {
        let first = self.phrase(frame, path, first)?;
        self.links(frame, path, noted(first), links)
    }

    /// Checks the links of a chain, behind a front with this verdict.
    #[cycle(phrases)]
    fn links<'t>(
        &mut self,
        frame: Frame,
        path: &KnownPath<'_, 't, 'a>,
        front: Verdict<'a>,
        links: &'t [Link],
    ) -> Result<Verdict<'a>, AllocError>
        ensures found { IfOk result (λ v. LinksChecked self.old.log self.new.log (view.verdict v)
            (typed_links path.now (view.verdict front.entry) (links_of (map link_tree links.now)))) }
        ensures notes { OnOk result (Notes self.old.log self.new.log
            (links_naming (frame_view frame) (names_along path.now) (links_of (map link_tree links.now)))) }
    {
        let mut front = front;
        for link in links {
            let right = self.phrase(frame, path, &link.right)?;
            front = linked(link.op, link.place, front, right);
        }
        Ok(front)
    }

    /// Checks a CASE between values.
    #[cycle(phrases)]
    fn case_value<'t>(
        &mut self,
        frame: Frame,
        path: &KnownPath<'_, 't, 'a>,
        place: Place,
        subject: &'t Phrase,
        values: &'t [Phrase],
    ) -> Result<Verdict<'a>, AllocError>
        ensures found { (first : Place) → IfOk result (λ v. Checked self.old.log self.new.log (view.verdict v)
            (typed_kind path.now place first (kinds.CaseValue (tree subject.now) (phrases_of (map tree values.now))))) }
        ensures notes { OnOk result (Notes self.old.log self.new.log
            (kind_naming (frame_view frame) (names_along path.now) place (kinds.CaseValue (tree subject.now) (phrases_of (map tree values.now))))) }
    {
        let subject = self.phrase(frame, path, subject)?;
        let values = self.phrases(frame, path, values)?;
        case_value_verdict(self.arena, place, subject, &values)
    }

    /// Checks a CASE between statements.
    #[cycle(phrases)]
    fn case_do<'t>(
        &mut self,
        frame: Frame,
        path: &KnownPath<'_, 't, 'a>,
        place: Place,
        subject: &'t Phrase,
        parts: &'t [Part],
    ) -> Result<Verdict<'a>, AllocError>
        ensures found { (first : Place) → IfOk result (λ v. Checked self.old.log self.new.log (view.verdict v)
            (typed_kind path.now place first (kinds.CaseDo (tree subject.now) (phrases_of (map part_tree parts.now))))) }
        ensures notes { OnOk result (Notes self.old.log self.new.log
            (kind_naming (frame_view frame) (names_along path.now) place (kinds.CaseDo (tree subject.now) (phrases_of (map part_tree parts.now))))) }
    {
        let subject = self.phrase(frame, path, subject)?;
        let gives = self.cases(frame, path, parts)?;
        Ok(case_do_verdict(place, subject, gives))
    }

    /// Checks the statements of a CASE, and finds what they give together.
    #[cycle(phrases)]
    fn cases<'t>(
        &mut self,
        frame: Frame,
        path: &KnownPath<'_, 't, 'a>,
        parts: &'t [Part],
    ) -> Result<Option<PhraseType<'a>>, AllocError>
        ensures found { IfOk result (λ gives. CasesChecked self.old.log self.new.log (given_view gives)
            (typed_phrases path.now (phrases_of (map part_tree parts.now)))) }
        ensures notes { OnOk result (Notes self.old.log self.new.log
            (phrases_naming (frame_view frame) (names_along path.now) (phrases_of (map part_tree parts.now)))) }
    {
        let mut gives = Some(PhraseType::Statement);
        for part in parts {
            let statement = self.case(frame, path, part)?;
            gives = both_give(gives, statement);
        }
        Ok(gives)
    }

    /// Checks a statement of a CASE.
    #[cycle(phrases)]
    fn case<'t>(
        &mut self,
        frame: Frame,
        path: &KnownPath<'_, 't, 'a>,
        part: &'t Part,
    ) -> Result<Verdict<'a>, AllocError>
        ensures found { IfOk result (λ v. Noted self.old.log self.new.log (view.verdict v)
            (typed_phrase path.now (part_tree part.now))) }
        ensures notes { OnOk result (Notes self.old.log self.new.log
            (naming (frame_view frame) (names_along path.now) (part_tree part.now))) }
    {
        match part {
            Part::Empty(_) => Ok(Ok(PhraseType::Statement)),
            Part::Phrase(phrase) => self.phrase(frame, path, phrase),
        }
    }

    /// Checks phrases.
    #[cycle(phrases)]
    fn phrases<'t>(
        &mut self,
        frame: Frame,
        path: &KnownPath<'_, 't, 'a>,
        phrases: &'t [Phrase],
    ) -> Result<Phrases<'a>, AllocError>
        ensures found { IfOk result (λ found. PhrasesChecked self.old.log self.new.log (all_view found.gives)
            (typed_phrases path.now (phrases_of (map tree phrases.now)))) }
        ensures notes { OnOk result (Notes self.old.log self.new.log
            (phrases_naming (frame_view frame) (names_along path.now) (phrases_of (map tree phrases.now)))) }
    {
        let mut found = Phrases::with_capacity(self.alloc, phrases.len())?;
        for phrase in phrases {
            let verdict = self.phrase(frame, path, phrase)?;
            found.add(verdict)?;
        }
        Ok(found)
    }

    /// Checks whether a reference is to a record of a class.
    #[cycle(phrases)]
    fn is_class<'t>(
        &mut self,
        frame: Frame,
        path: &KnownPath<'_, 't, 'a>,
        place: Place,
        operand: &'t Phrase,
        class: &(Spelling, Place),
    ) -> Result<Verdict<'a>, AllocError>
        ensures found { (first : Place) → IfOk result (λ v. Checked self.old.log self.new.log (view.verdict v)
            (typed_kind path.now place first (kinds.IsClass (tree operand.now) class.now.0 class.now.1))) }
        ensures notes { OnOk result (Notes self.old.log self.new.log
            (naming (frame_view frame) (names_along path.now) (tree operand.now))) }
    {
        let operand = self.phrase(frame, path, operand)?;
        class_fault(path, class, &mut self.log.faults)?;
        let target = self.target(path, &class.0)?;
        Ok(is_verdict(place, target, operand))
    }

    /// Checks an assignment.
    #[cycle(phrases)]
    fn assign<'t>(
        &mut self,
        frame: Frame,
        path: &KnownPath<'_, 't, 'a>,
        place: Place,
        assignment: &'t Assignment,
    ) -> Result<Verdict<'a>, AllocError>
        ensures found { (first : Place) → IfOk result (λ v. Checked self.old.log self.new.log (view.verdict v)
            (typed_kind path.now place first (assignment_tree assignment.now))) }
        ensures notes { OnOk result (Notes self.old.log self.new.log
            (kind_naming (frame_view frame) (names_along path.now) place (assignment_tree assignment.now))) }
    {
        let found = self.assignment(frame, path, place, assignment)?;
        Ok(found.verdict)
    }

    /// Checks an assignment, and finds what the value at its right end gives.
    #[cycle(phrases)]
    fn assignment<'t>(
        &mut self,
        frame: Frame,
        path: &KnownPath<'_, 't, 'a>,
        place: Place,
        assignment: &'t Assignment,
    ) -> Result<Assigned<'a>, AllocError>
        ensures found { (first : Place) → IfOk result (λ a. AssignmentChecked self.old.log self.new.log
            (view.verdict a.verdict) (given_view a.end)
            (typed_kind path.now place first (assignment_tree assignment.now))) }
        ensures notes { OnOk result (Notes self.old.log self.new.log
            (kind_naming (frame_view frame) (names_along path.now) place (assignment_tree assignment.now))) }
    {
        let left = left_of(path, &assignment.target);
        let target = self.phrase(frame, path, &assignment.target)?;
        let value = self.value(frame, path, &assignment.value)?;
        let end = value.end;
        let verdict = assigned_verdict(place, left, target, value.verdict, end);
        Ok(Assigned { verdict, end })
    }

    /// Checks the value of an assignment, or a setting: where it is an assignment itself, it isn't counted.
    #[cycle(phrases)]
    pub(crate) fn value<'t>(
        &mut self,
        frame: Frame,
        path: &KnownPath<'_, 't, 'a>,
        phrase: &'t Phrase,
    ) -> Result<Assigned<'a>, AllocError>
        ensures found { IfOk result (λ a. ValueChecked self.old.log self.new.log
            (view.verdict a.verdict) (given_view a.end) (typed_phrase path.now (tree phrase.now))) }
        ensures notes { OnOk result (Notes self.old.log self.new.log
            (naming (frame_view frame) (names_along path.now) (tree phrase.now))) }
    {
        let Kind::Assign(assignment) = &phrase.kind else {
            let verdict = self.phrase(frame, path, phrase)?;
            let end = given(verdict);
            return Ok(Assigned { verdict, end });
        };
        let found = self.assignment(frame, path, phrase.place, assignment)?;
        self.note(found.verdict)?;
        self.log.add(Finding::uncounted(found.verdict))?;
        Ok(found)
    }

    /// Checks the body of a FOR at a place.
    #[cycle(phrases)]
    fn controlled<'t>(
        &mut self,
        frame: Frame,
        path: &KnownPath<'_, 't, 'a>,
        place: Place,
        name: &'t Spelling,
        body: &'t Phrase,
    ) -> Result<Verdict<'a>, AllocError>
        ensures found { IfOk result (λ v. Noted self.old.log self.new.log (view.verdict v)
            (typed_phrase (scopes.control_scope place name.now ∷ path.now) (tree body.now))) }
        ensures notes { OnOk result (Notes self.old.log self.new.log
            (naming (frame_view frame) (scope_of ((name.now, place) ∷ []) ∷ names_along path.now) (tree body.now))) }
    {
        self.phrase(frame, &KnownPath::control(name, place, &*path), body)
    }

    /// Checks a FOR over a range.
    #[cycle(phrases)]
    fn for_range<'t>(
        &mut self,
        frame: Frame,
        path: &KnownPath<'_, 't, 'a>,
        place: Place,
        name: &'t Spelling,
        start: &'t Phrase,
        step: &'t Option<Box<Phrase>>,
        limit: &'t Phrase,
        body: &'t Phrase,
    ) -> Result<Verdict<'a>, AllocError>
        ensures found { (first : Place) → IfOk result (λ v. Checked self.old.log self.new.log (view.verdict v)
            (typed_kind path.now place first (kinds.ForStep name.now (tree start.now) (optional_tree step.now) (tree limit.now) (tree body.now)))) }
        ensures notes { OnOk result (Notes self.old.log self.new.log
            (kind_naming (frame_view frame) (names_along path.now) place (kinds.ForStep name.now (tree start.now) (optional_tree step.now) (tree limit.now) (tree body.now)))) }
    {
        let inner = note_control(&mut self.log.names, frame, name, place)?;
        let range = self.range(inner, path, start, step, limit)?;
        let body = self.controlled(inner, path, place, name, body)?;
        Ok(range_verdict(place, range, body))
    }

    /// Checks the range of a FOR.
    #[cycle(phrases)]
    fn range<'t>(
        &mut self,
        frame: Frame,
        path: &KnownPath<'_, 't, 'a>,
        start: &'t Phrase,
        step: &'t Option<Box<Phrase>>,
        limit: &'t Phrase,
    ) -> Result<Range<'a>, AllocError>
        ensures found { IfOk result (λ r. RangeChecked path.now self.old.log self.new.log r
            (tree start.now) (optional_tree step.now) (tree limit.now)) }
        ensures notes { OnOk result (Notes self.old.log self.new.log
            (and (naming (frame_view frame) (names_along path.now) (tree start.now)) (and (perhaps_naming (frame_view frame) (names_along path.now) (optional_tree step.now)) (naming (frame_view frame) (names_along path.now) (tree limit.now))))) }
    {
        let start = self.phrase(frame, path, start)?;
        let step = self.step(frame, path, step)?;
        let limit = self.phrase(frame, path, limit)?;
        Ok(Range { start, step, limit })
    }

    /// Checks the step of a FOR, where there is one.
    #[cycle(phrases)]
    fn step<'t>(
        &mut self,
        frame: Frame,
        path: &KnownPath<'_, 't, 'a>,
        step: &'t Option<Box<Phrase>>,
    ) -> Result<Option<Verdict<'a>>, AllocError>
        ensures found { IfOk result (λ v. StepChecked path.now self.old.log self.new.log
            (option_map view.verdict v) (optional_tree step.now)) }
        ensures notes { OnOk result (Notes self.old.log self.new.log
            (perhaps_naming (frame_view frame) (names_along path.now) (optional_tree step.now))) }
    {
        match step {
            None => Ok(None),
            Some(step) => Ok(Some(self.phrase(frame, path, step)?)),
        }
    }

    /// Checks a FOR with a list of values.
    #[cycle(phrases)]
    fn for_list<'t>(
        &mut self,
        frame: Frame,
        path: &KnownPath<'_, 't, 'a>,
        place: Place,
        name: &'t Spelling,
        values: &'t [Phrase],
        body: &'t Phrase,
    ) -> Result<Verdict<'a>, AllocError>
        ensures found { (first : Place) → IfOk result (λ v. Checked self.old.log self.new.log (view.verdict v)
            (typed_kind path.now place first (kinds.ForList name.now (phrases_of (map tree values.now)) (tree body.now)))) }
        ensures notes { OnOk result (Notes self.old.log self.new.log
            (kind_naming (frame_view frame) (names_along path.now) place (kinds.ForList name.now (phrases_of (map tree values.now)) (tree body.now)))) }
    {
        let inner = note_control(&mut self.log.names, frame, name, place)?;
        let values = self.phrases(inner, path, values)?;
        let body = self.controlled(inner, path, place, name, body)?;
        Ok(for_list_verdict(place, &values, body))
    }
}

/// The verdict of a phrase without parts.
fn leaf<'a>(value_type: ValueType<'a>) -> Result<Verdict<'a>, AllocError>
    ensures { IfOk result (λ v. view.verdict v ≡ Good (Simple (view.value_type value_type.entry))) }
{
    Ok(Ok(PhraseType::Value(value_type)))
}

/// The verdict of a string that is written out.
fn quoted<'a>(text: &[u8]) -> Result<Verdict<'a>, AllocError>
    ensures { IfOk result (λ v. view.verdict v ≡ Good (Simple (Str (length text.now)))) }
{
    let Ok(length) = u32::try_from(text.len()) else {
        return Err(AllocError);
    };
    leaf(ValueType::Str(length))
}
