ghost use Rattle.std.specs.Prelude.{◌≡◌, ◌<◌, ◌&&◌, false, Some, None, IsSome, IfSome, length, map};
ghost use Rattle.std.specs.List.{All};
ghost use Rattle.value_ops.specs.declared.places.Place.{Place};
ghost use Rattle.algolw_typing.specs.Types as types;
ghost use Rattle.algolw_typing.specs.Verdicts.{Verdict};
ghost use Rattle.algolw_typing.specs.Actuals as rules;
ghost use Rattle.algolw_typing.specs.ProgramView.{gives_view};
ghost use Rattle.program_meaning.specs.Copying.{is_good, stars};
ghost use Rattle.stack_code.specs.CodeView.{CodeView, GivenFits, Given, instructions_view, numbers, kind_view, formal_type_view};
ghost use Rattle.stack_code.specs.Limits.{CodeRuns, KindRuns, FormalRuns, FormalTypeRuns, ReadingRuns, TextRuns};
ghost use Rattle.stack_code.specs.Machine.{a_procedure};
ghost use Rattle.stack_code.specs.Table as table;
ghost use Rattle.machine_rows.specs.Kinds.{CellsFit};
ghost use Rattle.machine_calls.specs.Fitting as fitting;
ghost use Rattle.machine_calls.specs.Found as found;

use crate::texts::find_procedure;
use algolw_tree::Gives;
use cell_store::{Closed, Descriptor, Store, Wide};
use machine_rows::cell_out;
use stack_code::{Code, Formal, FormalType, Instr, Reading, Source, TextHead, is_same};
use value_ops::{SetId, SimpleType};

/// What an actual is where it is compared with a formal.
#[derive(Clone, Copy)]
enum Part {
    /// A phrase.
    Phrase {
        /// Whether it is a variable.
        is_variable: bool,
        /// What it gives.
        gives: Gives,
    },
    /// An array or a subarray.
    Array {
        /// The type of its elements.
        kind: SimpleType,
        /// How many dimensions are left.
        dimensions: usize,
    },
    /// A procedure, with the type of its value where it has one.
    Procedure(Option<SimpleType>),
    /// The name alone of a procedure with formals, where no procedure is wanted.
    WithFormals,
    /// What has no type.
    Untyped,
}

/// Whether the actuals of a call, by the heads of their texts, fit formals.
pub(crate) fn actuals_fit(store: &Store, code: &Code, formals: &[Formal], heads: &[u32]) -> bool
    requires code { CodeRuns code.now }
    requires cells { CellsFit code.now.given store.now.cells }
    requires formals { All (FormalRuns code.now.given) formals.now }
    requires parts { IsSome (fitting.parts code.now store.now formals.now heads.now) }
    ensures { IfSome (fitting.parts code.now store.now formals.now heads.now) (λ parts. (w : Place) → fitting.they_fit code.now.given w formals.now (length heads.now) parts ≡ result) }
{
    if formals.len() != heads.len() {
        return false;
    }
    for (index, formal) in formals.iter().enumerate() {
        let text = text_at(code, heads[index]);
        let part = part_of(store, code, formal.is, text.reading);
        if !fits_formal(code, formal.is, part) {
            return false;
        }
    }
    true
}

/// The actual whose head is an instruction.
pub fn text_at(code: &Code, head: u32) -> TextHead
    requires { IsSome (found.text_at code.now head) }
    ensures is { found.text_at code.now head ≡ Some result }
    ensures fits { TextRuns code.now.given result }
{
    match code.coded(head).does {
        Instr::Text { head, .. } => code.text(head),
        _ => unreachable!(),
    }
}

/// The same, where that is one.
pub fn find_text(code: &Code, head: u32) -> Option<TextHead>
    ensures { result ≡ found.text_at code.now head }
{
    if head as usize >= code.instruction_count() {
        return None;
    }
    match code.coded(head).does {
        Instr::Text { head, .. } => Some(code.text(head)),
        _ => None,
    }
}

/// What an actual is for a formal.
fn part_of(store: &Store, code: &Code, formal: FormalType, reading: Reading) -> Part
    requires code { CodeRuns code.now }
    requires cells { CellsFit code.now.given store.now.cells }
    requires reading { ReadingRuns code.now.given reading }
    requires found { IsSome (fitting.read_part code.now store.now formal reading) }
    ensures is { fitting.read_part code.now store.now formal reading ≡ Some (fitting.part_view code.now.given result) }
    ensures fits { fitting.PartFits code.now.given result }
{
    match reading {
        Reading::Phrase { is_variable, gives } => Part::Phrase { is_variable, gives },
        Reading::Name(source) => name_part(store, code, formal, source),
        Reading::Subarray { array, stars } => subarray_part(store, array, stars),
        Reading::Nothing => Part::Untyped,
    }
}

/// The name alone of what stands for it.
fn name_part(store: &Store, code: &Code, formal: FormalType, source: Source) -> Part
    requires code { CodeRuns code.now }
    requires cells { CellsFit code.now.given store.now.cells }
    requires found { IsSome (found.source_out store.now source) }
    ensures is { fitting.read_part code.now store.now formal (Reading.Name source) ≡ Some (fitting.part_view code.now.given result) }
    ensures fits { fitting.PartFits code.now.given result }
{
    match source {
        Source::Head { head, .. } => procedure_part(code, formal, head),
        Source::Entry { links, position } => {
            match store.wide_cell(cell_out(store, links, position)) {
                Some(Wide::Array(array)) => array_part(array, free_dimensions(array)),
                Some(Wide::Procedure(procedure)) => procedure_part(code, formal, procedure.head),
                Some(Wide::Thunk(thunk)) => thunk_part(thunk),
                _ => Part::Untyped,
            }
        }
    }
}

/// A part of an array, with so many dimensions.
fn subarray_part(store: &Store, source: Source, stars: u32) -> Part
    requires { IsSome (found.source_out store.now source) }
    ensures is { (c : CodeView) (formal : FormalType) → fitting.read_part c store.now formal (Reading.Subarray source stars) ≡ Some (fitting.part_view c.given result) }
    ensures fits { (g : Given) → CellsFit g store.now.cells → fitting.PartFits g result }
{
    match source {
        Source::Head { .. } => Part::Untyped,
        Source::Entry { links, position } => {
            match store.wide_cell(cell_out(store, links, position)) {
                Some(Wide::Array(array)) => array_part(array, stars as usize),
                _ => Part::Untyped,
            }
        }
    }
}

/// How many subscripts of an array aren't given.
fn free_dimensions(array: &Descriptor) -> usize
    ensures { result ≡ stars (map (λ d. d.given) array.now.dimensions) }
{
    let dimensions = array.dimensions();
    let mut count = 0;
    for dimension in dimensions {
        if dimension.given.is_none() {
            count += 1;
        }
    }
    count
}

/// An array with so many dimensions that are left.
#[inline(always)]
fn array_part(array: &Descriptor, dimensions: usize) -> Part
    ensures { result ≡ Part.Array array.now.kind dimensions }
{
    Part::Array {
        kind: array.kind(),
        dimensions,
    }
}

/// A procedure's name alone: a procedure where the formal is one, and otherwise the phrase that calls it.
fn procedure_part(code: &Code, formal: FormalType, head: u32) -> Part
    requires code { CodeRuns code.now }
    ensures is { fitting.part_view code.now.given result ≡ table.name_part (instructions_view code.now) (formal_type_view code.now.given formal) (a_procedure (record { head = head; link = None })) }
    ensures fits { fitting.PartFits code.now.given result }
{
    let Some(head) = find_procedure(code, head) else {
        return Part::Untyped;
    };
    match formal {
        FormalType::Procedure(_) => Part::Procedure(head.result),
        _ if head.formals.as_slice().is_empty() => Part::Phrase {
            is_variable: false,
            gives: gives_of(head.result),
        },
        _ => Part::WithFormals,
    }
}

/// A copied actual, which is a phrase.
#[inline(always)]
fn thunk_part(thunk: &Closed) -> Part
    ensures { result ≡ Part.Phrase false (fitting.gives_of thunk.now.kind) }
{
    Part::Phrase {
        is_variable: false,
        gives: gives_of(thunk.kind),
    }
}

/// What has a value of a type gives, where it has one.
#[inline(always)]
fn gives_of(kind: Option<SimpleType>) -> Gives
    ensures { result ≡ fitting.gives_of kind }
{
    match kind {
        Some(kind) => Gives::Simple(kind),
        None => Gives::Statement,
    }
}

/// Whether an actual fits a formal.
fn fits_formal(code: &Code, formal: FormalType, part: Part) -> bool
    requires whole { GivenFits code.now.given }
    requires formal { FormalTypeRuns code.now.given formal }
    requires part { fitting.PartFits code.now.given part }
    ensures { (w : Place) (rest : Verdict) → is_good (rules.table_a w (formal_type_view code.now.given formal) (fitting.part_view code.now.given part) rest) ≡ (result && is_good rest) }
{
    match formal {
        FormalType::ByName(kind) | FormalType::Value(kind) => fits_value(code, kind, part),
        FormalType::Result(kind) => fits_result(code, kind, part),
        FormalType::ValueResult(kind) => {
            fits_value(code, kind, part) && fits_result(code, kind, part)
        }
        FormalType::Array { kind, dimensions } => fits_array(code, kind, dimensions, part),
        FormalType::Procedure(Some(kind)) => fits_function(code, kind, part),
        FormalType::Procedure(None) => fits_statement(part),
    }
}

/// Whether it is a phrase whose value fits a type.
fn fits_value(code: &Code, kind: SimpleType, part: Part) -> bool
    requires whole { GivenFits code.now.given }
    requires kind { KindRuns code.now.given kind }
    requires part { fitting.PartFits code.now.given part }
    ensures { result ≡ fitting.fits_value (kind_view code.now.given kind) (fitting.part_view code.now.given part) }
{
    match part {
        Part::Phrase {
            gives: Gives::Simple(given),
            ..
        } => fits(code, given, kind),
        _ => false,
    }
}

/// Whether it is a variable whose type a type fits.
fn fits_result(code: &Code, kind: SimpleType, part: Part) -> bool
    requires whole { GivenFits code.now.given }
    requires kind { KindRuns code.now.given kind }
    requires part { fitting.PartFits code.now.given part }
    ensures { result ≡ fitting.fits_result (kind_view code.now.given kind) (fitting.part_view code.now.given part) }
{
    match part {
        Part::Phrase {
            is_variable: true,
            gives: Gives::Simple(given),
        } => fits(code, kind, given),
        _ => false,
    }
}

/// Whether it is an array of so many dimensions, whose elements have a type.
fn fits_array(code: &Code, kind: SimpleType, dimensions: u32, part: Part) -> bool
    requires whole { GivenFits code.now.given }
    requires kind { KindRuns code.now.given kind }
    requires part { fitting.PartFits code.now.given part }
    ensures { (w : Place) (rest : Verdict) → is_good (rules.array_actual w (kind_view code.now.given kind) dimensions (fitting.part_view code.now.given part) rest) ≡ (result && is_good rest) }
{
    match part {
        Part::Array {
            kind: given,
            dimensions: left,
        } => left == dimensions as usize && is_same(code, given, kind),
        _ => false,
    }
}

/// Whether it is a phrase whose value fits a type, or a procedure that has a value of just that type.
fn fits_function(code: &Code, kind: SimpleType, part: Part) -> bool
    requires whole { GivenFits code.now.given }
    requires kind { KindRuns code.now.given kind }
    requires part { fitting.PartFits code.now.given part }
    ensures { (w : Place) (rest : Verdict) → is_good (rules.function_actual w (kind_view code.now.given kind) (fitting.part_view code.now.given part) rest) ≡ (result && is_good rest) }
{
    match part {
        Part::Phrase {
            gives: Gives::Simple(given),
            ..
        } => fits(code, given, kind),
        Part::Procedure(Some(given)) => is_same(code, given, kind),
        _ => false,
    }
}

/// Whether it is a statement, or a procedure that has no value.
fn fits_statement(part: Part) -> bool
    ensures { (g : Given) (w : Place) (rest : Verdict) → is_good (rules.statement_actual w (fitting.part_view g part) rest) ≡ (result && is_good rest) }
{
    matches!(
        part,
        Part::Phrase {
            gives: Gives::Statement,
            ..
        } | Part::Procedure(None)
    )
}

/// Whether a value of a type fits another type.
fn fits(code: &Code, given: SimpleType, wanted: SimpleType) -> bool
    requires whole { GivenFits code.now.given }
    requires given { KindRuns code.now.given given }
    requires wanted { KindRuns code.now.given wanted }
    ensures { result ≡ types.fits (kind_view code.now.given given) (kind_view code.now.given wanted) }
{
    match (given, wanted) {
        (SimpleType::Integer, SimpleType::Integer)
        | (SimpleType::Logical, SimpleType::Logical)
        | (SimpleType::Bits, SimpleType::Bits) => true,
        (SimpleType::Str(given), SimpleType::Str(wanted)) => given <= wanted,
        (SimpleType::Reference(given), SimpleType::Reference(wanted)) => {
            share_one(code, given, wanted)
        }
        _ => false,
    }
}

/// Whether a set has no classes, or shares one with another.
fn share_one(code: &Code, given: SetId, wanted: SetId) -> bool
    requires whole { GivenFits code.now.given }
    requires given { given.0 < length code.now.given.classes.sets }
    requires wanted { wanted.0 < length code.now.given.classes.sets }
    ensures { result ≡ types.fits (kind_view code.now.given (SimpleType.Reference given)) (kind_view code.now.given (SimpleType.Reference wanted)) }
{
    let classes = code.set_classes(given);
    classes.is_empty() || classes.iter().any(|class| code.set_has(wanted, *class))
}
