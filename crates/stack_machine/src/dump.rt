ghost use Rattle.std.specs.Prelude.{◌≡◌, ◌≤◌, ◌<◌, ◌++◌, [], ◌∷◌, map, take, length, slice_get, vec_capacity, false, Some, IfSome, option_copied};
ghost use Rattle.cell_store.specs.Words.{is_wide};
ghost use Rattle.cell_store.specs.Held.{word_cell};
ghost use Rattle.post_mortem.specs.declared.entries.Entry.TheVariants as line;
ghost use Rattle.post_mortem.specs.Dump.{dump_text, IfShown};
ghost use Rattle.post_mortem.specs.Shown.{shown_text, DimensionsFit, IsNoRecord};
ghost use Rattle.stack_code.specs.Code.{procedure_head, text_head};
ghost use Rattle.stack_code.specs.CodeView.{code_view, text_view};
ghost use Rattle.stack_code.specs.Limits.{CodeRuns};
ghost use Rattle.stack_code.specs.Machine.{on_top_of};
ghost use Rattle.stack_code.specs.Run.{dump_lines, name_of, first_of, shown_record};
ghost use Rattle.stack_machine.specs.Dumped as dumped;
ghost use Rattle.stack_machine.specs.Dumped.{CanBeShown};

use cell_store::{Descriptor, Dimension, Entry, Wide, Word};
use line_text::Line;
use machine_calls::{find_procedure, find_text};
use machine_rows::State;
use post_mortem::{Dimensions, Shown, dump_line};
use stack_code::Code;
use value_ops::{Name, Place, RecordId, Value};

/// The most lines of a dump.
pub(crate) const MOST_LINES: usize = 40;

/// What is under way where a run stopped, the newest first, each with the names that stand behind it, in at most 40 lines.
pub(crate) fn dump_into(lines: &mut Vec<Line>, state: &State, code: &Code)
    requires room { 40 ≤ vec_capacity lines.old }
    requires shown { CanBeShown code.now state.now }
    ensures room { 40 ≤ vec_capacity lines.new }
    ensures few { length lines.new.items ≤ 40 }
    ensures dump { lines.new.items ≡ dump_lines (code_view code.now) (dumped.shown_machine code.now state.now) }
{
    lines.clear();
    let mut end = state.store.entry_count();
    for number in (0..state.store.entry_count()).rev() {
        if lines.len() >= MOST_LINES {
            return;
        }
        if let Some(mark) = shown_mark(state, code, number) {
            add_line(lines, &mark);
            dump_names(lines, state, code, number + 1, end);
            end = number;
        }
    }
}

/// A line more, where there are fewer than 40.
fn add_line(lines: &mut Vec<Line>, entry: &post_mortem::Entry)
    requires room { 40 ≤ vec_capacity lines.old }
    requires few { length lines.old.items ≤ 40 }
    requires dimensions { IfShown entry.now DimensionsFit }
    requires no_record { IfShown entry.now IsNoRecord }
    ensures room { 40 ≤ vec_capacity lines.new }
    ensures added { lines.new.items ≡ take 40 (lines.old.items ++ dump_text entry.now ∷ []) }
{
    if lines.len() < MOST_LINES {
        lines.push_reserved(dump_line(entry));
    }
}

/// The line of a mark, by its number; none of what isn't shown as one.
fn shown_mark(state: &State, code: &Code, number: u32) -> Option<post_mortem::Entry>
    requires shown { CanBeShown code.now state.now }
    requires there { number < length state.now.store.entries }
    ensures mark { IfSome (slice_get state.now.store.entries number) (λ e. result ≡ dumped.mark_line code.now e) }
    ensures dimensions { IfSome result (λ l. IfShown l DimensionsFit) }
    ensures no_record { IfSome result (λ l. IfShown l IsNoRecord) }
{
    match state.store.entry(number as usize) {
        Entry::Block { place, .. } => Some(post_mortem::Entry::Block(place)),
        Entry::Turn { place, .. } => Some(post_mortem::Entry::For(place)),
        Entry::Call { head, site } => {
            Some(post_mortem::Entry::Call(procedure_name(code, head), site))
        }
        Entry::Actual { head } => Some(post_mortem::Entry::Actual(text_place(code, head))),
        _ => None,
    }
}

/// The name of the procedure whose head is an instruction, where that is one.
fn procedure_name(code: &Code, head: u32) -> Name
    requires { CodeRuns code.now }
    ensures { result ≡ name_of (procedure_head (code_view code.now).instructions head) }
{
    match find_procedure(code, head) {
        Some(procedure) => code.name(procedure.name).text,
        None => Name::new(),
    }
}

/// Where an actual begins whose head is an instruction, where that is one.
fn text_place(code: &Code, head: u32) -> Place
    requires { CodeRuns code.now }
    ensures { result ≡ first_of (text_head (code_view code.now).instructions head) }
{
    match find_text(code, head) {
        Some(text) => text.first,
        None => Place { card: 0, column: 0 },
    }
}

/// The names among some entries, as many as there are lines left for.
fn dump_names(lines: &mut Vec<Line>, state: &State, code: &Code, first: u32, end: u32)
    requires room { 40 ≤ vec_capacity lines.old }
    requires few { length lines.old.items ≤ 40 }
    requires shown { CanBeShown code.now state.now }
    requires ordered { first ≤ end }
    requires there { end ≤ length state.now.store.entries }
    ensures room { 40 ≤ vec_capacity lines.new }
    ensures added { lines.new.items ≡ take 40 (lines.old.items
        ++ map dump_text (dumped.name_lines code.now state.now (dumped.between first end state.now.store.entries))) }
{
    for number in first..end {
        if lines.len() >= MOST_LINES {
            return;
        }
        dump_name(lines, state, code, number);
    }
}

/// The line of a name, by the number of its entry; none of what is no name.
fn dump_name(lines: &mut Vec<Line>, state: &State, code: &Code, number: u32)
    requires room { 40 ≤ vec_capacity lines.old }
    requires few { length lines.old.items ≤ 40 }
    requires shown { CanBeShown code.now state.now }
    requires there { number < length state.now.store.entries }
    ensures room { 40 ≤ vec_capacity lines.new }
    ensures added { IfSome (slice_get state.now.store.entries number) (λ e.
        lines.new.items ≡ take 40 (lines.old.items ++ map dump_text (dumped.name_lines code.now state.now (e ∷ [])))) }
{
    match state.store.entry(number as usize) {
        Entry::Name { name, cell } => {
            let shown = shown_cell(state, code, cell);
            add_name(lines, code, name, shown);
        }
        Entry::ProcedureName { name, .. } => add_name(lines, code, name, Shown::Procedure),
        _ => {}
    }
}

/// The line of a name with what it stands for.
fn add_name(lines: &mut Vec<Line>, code: &Code, name: u32, shown: Shown)
    requires room { 40 ≤ vec_capacity lines.old }
    requires few { length lines.old.items ≤ 40 }
    requires name { name < length code.now.given.names }
    requires dimensions { DimensionsFit shown }
    requires no_record { IsNoRecord shown }
    ensures room { 40 ≤ vec_capacity lines.new }
    ensures added { lines.new.items ≡ take 40 (lines.old.items ++ dump_text (line.Shown (text_view code.now.given name) shown) ∷ []) }
{
    let text = code.name(name).text;
    add_line(lines, &post_mortem::Entry::Shown(text, shown));
}

/// What a cell holds, as it is shown.
#[tactic(auto, using(crate::proofs::CellShown::wide_cell_shown, crate::proofs::CellShown::word_cell_shown))]
fn shown_cell(state: &State, code: &Code, cell: u32) -> Shown
    requires { CanBeShown code.now state.now }
    ensures text { shown_text result ≡ shown_text (dumped.cell_shown code.now state.now (slice_get state.now.store.cells cell)) }
    ensures dimensions { DimensionsFit result }
    ensures no_record { IsNoRecord result }
{
    let word = state.store.cell(cell);
    if word.is_wide() {
        shown_wide(state.store.wide_cell(cell))
    } else {
        shown_word(state, code, word)
    }
}

/// What a word is, as it is shown.
fn shown_word(state: &State, code: &Code, word: Word) -> Shown
    requires can { CanBeShown code.now state.now }
    requires word { is_wide word ≡ false }
    ensures shown { result ≡ dumped.cell_shown code.now state.now (Some (word_cell word)) }
    ensures dimensions { DimensionsFit result }
    ensures no_record { IsNoRecord result }
{
    match word {
        Word::Nothing => Shown::Undefined,
        Word::Integer(number) => Shown::Simple(Value::Integer(number)),
        Word::True => Shown::Simple(Value::Logical(true)),
        Word::False => Shown::Simple(Value::Logical(false)),
        Word::Bits(bits) => Shown::Simple(Value::Bits(bits)),
        Word::Null => Shown::Simple(Value::Reference(None)),
        Word::Record(number) => shown_record(state, code, Word::told(number)),
        Word::Cell(_) | Word::Field(_) => Shown::ByName,
        Word::Wide => unreachable!(),
    }
}

/// A record, as it is shown.
fn shown_record(state: &State, code: &Code, id: RecordId) -> Shown
    requires { CanBeShown code.now state.now }
    ensures shown { result ≡ shown_record id (on_top_of (dumped.shown_machine code.now state.now).records id.0) }
    ensures dimensions { DimensionsFit result }
    ensures no_record { IsNoRecord result }
{
    if u32::from(id.0) < state.records.count() {
        let class = state.records.class_of(id);
        Shown::Record(*code.class_name(class), id)
    } else {
        Shown::Undefined
    }
}

/// What is wide in a cell, as it is shown.
fn shown_wide(held: Option<&Wide>) -> Shown
    ensures text { shown_text result ≡ shown_text (dumped.wide_shown (option_copied held.entry)) }
    ensures dimensions { DimensionsFit result }
    ensures no_record { IsNoRecord result }
{
    match held {
        Some(Wide::Str(text)) => Shown::Simple(Value::Str(*text)),
        Some(Wide::Array(array)) => Shown::Bounds(bounds_left(array)),
        Some(Wide::Procedure(_)) => Shown::Procedure,
        Some(_) => Shown::ByName,
        None => Shown::Undefined,
    }
}

/// The bounds of the dimensions of an array of which no subscript is given.
fn bounds_left(array: &Descriptor) -> Dimensions
    ensures count { result.count ≤ 8 }
    ensures bounds { take result.count result.bounds ≡ dumped.bounds_left array.now.dimensions }
{
    let mut bounds = [(0, 0); 8];
    let mut count = 0;
    for dimension in array.dimensions() {
        if dimension.given.is_none() {
            bounds[usize::from(count)] = bounds_of(dimension);
            count += 1;
        }
    }
    Dimensions { count, bounds }
}

/// The bounds of a dimension.
#[inline(always)]
fn bounds_of(dimension: &Dimension) -> (i32, i32)
    ensures { result ≡ (dimension.now.lower, dimension.now.upper) }
{
    (dimension.lower, dimension.upper)
}
