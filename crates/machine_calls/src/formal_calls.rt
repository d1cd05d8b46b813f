ghost use Rattle.std.specs.Prelude.{◌≡◌, ◌+◌, ◌<◌, true, Some, IsSome, IfSome, Ok, length, slice_index_or};
ghost use Rattle.std.specs.Option.{option_map};
ghost use Rattle.algolw_typing.specs.ProgramView.{gives_view};
ghost use Rattle.program_meaning.specs.Copying.{is_variable_of};
ghost use Rattle.stack_code.specs.CodeView.{GivenFits, numbers, kind_view, formal_type_view, source_view};
ghost use Rattle.stack_code.specs.Limits.{CodeRuns, InstrRuns, FormalTypeRuns, GivesRuns, KindRuns, KindsRun};
ghost use Rattle.stack_code.specs.declared.instructions.Instr.TheVariants as instr;
ghost use Rattle.stack_code.specs.declared.instructions.Source.TheVariants as source;
ghost use Rattle.stack_code.specs.Table as table;
ghost use Rattle.value_ops.specs.declared.places.Place.{Place};
ghost use Rattle.cell_store.specs.declared.cells.Wide.TheVariants as wide;
ghost use Rattle.machine_rows.specs.Kinds.{CellsFit};
ghost use Rattle.machine_rows.specs.Seen.{Seen, Stands, Comes, machine_of, row_of, IsClear};
ghost use Rattle.machine_rows.specs.Given.{IsGiven};
ghost use Rattle.machine_calls.specs.Fitting as fitting;
ghost use Rattle.machine_calls.specs.Found as found;
ghost use Rattle.machine_rows.specs.Rows.{Goes, Lands};

use crate::comparing::{actuals_fit, text_at};
use crate::texts::{call_procedure, enter_aside, hold_thunk, procedure_at, use_thunk};
use algolw_tree::Gives;
use cell_store::{Closed, Procedure, Purpose, Store, Wide};
use machine_rows::{Given, Halt, Held, Next, State, cell_out, go_to};
use name_thunks::text_out;
use stack_code::{Code, ComparedCall, FormalType, Reading, Source, is_variable_of};
use value_ops::{Fault, Place, SimpleType};

/// What stands for a name, where it is wide, as procedures, copied actuals and arrays are.
pub(crate) fn source_out(store: &Store, source: Source) -> Option<Wide>
    requires { IsSome (found.source_out store.now source) }
    ensures { result ≡ found.wide_out store.now source }
{
    match source {
        Source::Entry { links, position } => store
            .wide_cell(cell_out(store, links, position))
            .copied(),
        Source::Head { links, head } => {
            let link = text_out(store, u32::from(links));
            Some(Wide::Procedure(Procedure { head, link }))
        }
    }
}

/// The procedure that stands for a name.
fn procedure_out(store: &Store, source: Source) -> Procedure
    requires { IsSome (found.procedure_in (found.source_out store.now source)) }
    ensures { found.procedure_in (found.source_out store.now source) ≡ Some result }
{
    match source {
        Source::Entry { links, position } => {
            match store.wide_cell(cell_out(store, links, position)) {
                Some(Wide::Procedure(procedure)) => *procedure,
                _ => unreachable!(),
            }
        }
        Source::Head { links, head } => {
            let link = text_out(store, u32::from(links));
            Procedure { head, link }
        }
    }
}

/// What stands for a name that stands alone is held: a procedure, a copied actual or an array.
#[inline(always)]
pub fn hand_on(state: &mut State, source: Source) -> Held
    ghost was: { Seen × Held }
    requires stands { Stands was.0 state.old }
    requires clear { IsClear (row_of was.0 0 (instr.HandOn source) (machine_of was.0 state.old was.1)) }
    ensures { Comes was.0 state.new was.1 (Ok result) (row_of was.0 0 (instr.HandOn source) (machine_of was.0 state.old was.1)) }
{
    hold_source(state, source)
}

/// The same, whatever is seen of it.
#[inline(always)]
fn hold_source(state: &mut State, source: Source) -> Held
    requires { IsSome (found.wide_out state.old.store source) }
    ensures held { result ≡ Held.Wide }
    ensures wide { Some state.new.wide ≡ found.wide_out state.old.store source }
    ensures kept { state.new ≡ record state.old { wide = state.new.wide } }
{
    match source {
        Source::Entry { links, position } => hold_entry(state, links, position),
        Source::Head { links, head } => {
            let link = text_out(&state.store, u32::from(links));
            state.wide.set_procedure(&Procedure { head, link });
        }
    }
    Held::Wide
}

/// What stands in the cell of a name is held, where it is wide.
#[inline(always)]
fn hold_entry(state: &mut State, links: u16, position: u32)
    requires { IsSome (found.wide_out state.old.store (source.Entry links position)) }
    ensures wide { Some state.new.wide ≡ found.wide_out state.old.store (source.Entry links position) }
    ensures kept { state.new ≡ record state.old { wide = state.new.wide } }
{
    let cell = cell_out(&state.store, links, position);
    let Some(wide) = state.store.wide_cell(cell) else {
        unreachable!()
    };
    state.wide.copy_from(wide);
}

/// The actuals of a call are compared with the formals of what is called, which may be a copied actual: then that is used.
/// F10, L1, L4.
pub fn compare(state: &mut State, given: &Given, call: u32, pc: u32, held: Held) -> Next
    ghost seen: { Seen }
    requires stands { Stands seen state.old }
    requires given { IsGiven seen given.now }
    requires pc { seen.pc ≡ pc }
    requires here { seen.pc < length seen.code.instructions }
    requires call { call < length seen.code.added.calls }
    requires clear { IsClear (row_of seen 0 (instr.Compare call) (machine_of seen state.old held)) }
    requires lands { Lands seen (row_of seen 0 (instr.Compare call) (machine_of seen state.old held)) }
    ensures { Goes seen state.new held result (row_of seen 0 (instr.Compare call) (machine_of seen state.old held)) }
{
    let call = given.code.call(call);
    let Some(called) = source_out(&state.store, call.source()) else {
        unreachable!()
    };
    match called {
        Wide::Procedure(procedure) => compare_procedure(
            state, given.code, procedure, call, pc, held,
        ),
        Wide::Thunk(thunk) => compare_thunk(state, given.steps, thunk, call, held),
        _ => unreachable!(),
    }
}

/// The actuals of a call are compared with the formals of a procedure. F10.
fn compare_procedure(
    state: &State,
    code: &Code,
    procedure: Procedure,
    call: &ComparedCall,
    pc: u32,
    held: Held,
) -> Next
    ghost seen: { Seen }
    requires stands { Stands seen state.now }
    requires code { seen.code ≡ code.now }
    requires pc { seen.pc ≡ pc }
    requires here { seen.pc < length seen.code.instructions }
    requires clear { IsClear (fitting.compare_row seen call.now (wide.Procedure procedure) (machine_of seen state.now held)) }
    ensures { Goes seen state.now held result (fitting.compare_row seen call.now (wide.Procedure procedure) (machine_of seen state.now held)) }
{
    if !call.compares() {
        return go_to(pc + 1, held);
    }
    if they_fit(&state.store, code, procedure, call) {
        return go_to(pc + 1, held);
    }
    Next::Halted(Halt::Fault(Fault::ActualsDoNotFit))
}

/// A copied actual that is called is used, as a statement or an expression, which has no formals. F10, L1, L4.
fn compare_thunk(
    state: &mut State,
    steps: u32,
    thunk: Closed,
    call: &ComparedCall,
    held: Held,
) -> Next
    ghost seen: { Seen }
    requires stands { Stands seen state.old }
    requires steps { seen.setting.steps ≡ steps }
    requires kind { KindsRun seen.code.given thunk.kind }
    requires clear { IsClear (fitting.compare_row seen call.now (wide.Thunk thunk) (machine_of seen state.old held)) }
    requires lands { Lands seen (fitting.compare_row seen call.now (wide.Thunk thunk) (machine_of seen state.old held)) }
    ensures { Goes seen state.new held result (fitting.compare_row seen call.now (wide.Thunk thunk) (machine_of seen state.old held)) }
{
    if !call.heads().is_empty() {
        return Next::Halted(Halt::Fault(Fault::ActualsDoNotFit));
    }
    use_thunk(state, steps, call.end(), Purpose::Value, thunk, held)
}

/// Whether the actuals of a call fit the formals of a procedure.
fn they_fit(store: &Store, code: &Code, procedure: Procedure, call: &ComparedCall) -> bool
    requires code { CodeRuns code.now }
    requires cells { CellsFit code.now.given store.now.cells }
    requires head { IsSome (found.procedure_at code.now procedure.head) }
    requires parts { IsSome (fitting.parts code.now store.now (found.formals_of (found.procedure_at code.now procedure.head)) call.now.heads) }
    ensures { IfSome (fitting.parts code.now store.now (found.formals_of (found.procedure_at code.now procedure.head)) call.now.heads)
        (λ parts. (w : Place) → fitting.they_fit code.now.given w (found.formals_of (found.procedure_at code.now procedure.head)) (length call.now.heads) parts ≡ result) }
{
    let head = procedure_at(code, procedure.head);
    actuals_fit(store, code, &head.formals, call.heads())
}

/// The type of a formal of the procedure whose head is an instruction.
fn formal_at(code: &Code, head: u32, formal: u32) -> FormalType
    requires { IsSome (found.formal_at code.now head formal) }
    ensures is { option_map (λ f. f.is) (found.formal_at code.now head formal) ≡ Some result }
    ensures fits { FormalTypeRuns code.now.given result }
{
    procedure_at(code, head).formals[formal as usize].is
}

/// The head of an actual of a call.
fn actual_head(call: &ComparedCall, number: u32) -> u32
    requires { number < length call.now.heads }
    ensures { result ≡ slice_index_or call.now.heads number 0 }
{
    call.heads()[number as usize]
}

/// An actual of a call is prepared for its formal.
pub fn prepare(
    state: &mut State,
    given: &Given,
    call: u32,
    formal: u32,
    pc: u32,
    held: Held,
) -> Next
    ghost seen: { Seen }
    requires stands { Stands seen state.old }
    requires given { IsGiven seen given.now }
    requires pc { seen.pc ≡ pc }
    requires here { seen.pc < length seen.code.instructions }
    requires fits { InstrRuns seen.code.given seen.code.added (instr.Prepare call formal) }
    requires clear { IsClear (row_of seen 0 (instr.Prepare call formal) (machine_of seen state.old held)) }
    requires lands { Lands seen (row_of seen 0 (instr.Prepare call formal) (machine_of seen state.old held)) }
    ensures { Goes seen state.new held result (row_of seen 0 (instr.Prepare call formal) (machine_of seen state.old held)) }
{
    let call = given.code.call(call);
    let head = actual_head(call, formal);
    let procedure = procedure_out(&state.store, call.source());
    let is = formal_at(given.code, procedure.head, formal);
    match text_at(given.code, head).reading {
        Reading::Phrase { is_variable, gives } => {
            prepare_phrase(state, given.code, is, head, is_variable, gives, pc, held)
        }
        Reading::Name(source) => prepare_name(state, is, head, source, pc, held),
        Reading::Subarray { .. } => enter_aside(state, Purpose::Value, None, head, pc, held),
        Reading::Nothing => prepare_nothing(state, is, head, pc, held),
    }
}

/// What is ready at once is held, and the `End` that would follow a text is stepped over.
#[inline(always)]
fn ready(held: Held, pc: u32) -> Next
    requires { pc < 4294967294 }
    ensures { result ≡ Next.On (record { pc = pc + 2; held = held }) }
{
    go_to(pc + 2, held)
}

/// A phrase is prepared.
fn prepare_phrase(
    state: &mut State,
    code: &Code,
    is: FormalType,
    head: u32,
    is_variable: bool,
    gives: Gives,
    pc: u32,
    held: Held,
) -> Next
    ghost seen: { Seen }
    requires stands { Stands seen state.old }
    requires code { seen.code ≡ code.now }
    requires pc { seen.pc ≡ pc }
    requires here { seen.pc < length seen.code.instructions }
    requires is { FormalTypeRuns seen.code.given is }
    requires gives { GivesRuns seen.code.given gives }
    requires clear { IsClear (table.prepare_phrase seen.code.marks (formal_type_view seen.code.given is) head is_variable (gives_view (numbers seen.code.given) gives) (machine_of seen state.old held)) }
    requires lands { Lands seen (table.prepare_phrase seen.code.marks (formal_type_view seen.code.given is) head is_variable (gives_view (numbers seen.code.given) gives) (machine_of seen state.old held)) }
    ensures { Goes seen state.new held result (table.prepare_phrase seen.code.marks (formal_type_view seen.code.given is) head is_variable (gives_view (numbers seen.code.given) gives) (machine_of seen state.old held)) }
{
    match is {
        FormalType::Value(kind) | FormalType::ValueResult(kind) => {
            enter_aside(state, Purpose::Value, Some(kind), head, pc, held)
        }
        FormalType::Result(_) => ready(Held::Nothing, pc),
        FormalType::ByName(kind) => {
            let variable = is_variable_of(code, kind, is_variable, gives);
            ready(hold_thunk(state, variable, Some(kind), head), pc)
        }
        FormalType::Procedure(result) => ready(hold_thunk(state, false, result, head), pc),
        FormalType::Array { .. } => unreachable!(),
    }
}

/// A name that stands alone is prepared.
fn prepare_name(
    state: &mut State,
    is: FormalType,
    head: u32,
    source: Source,
    pc: u32,
    held: Held,
) -> Next
    ghost seen: { Seen }
    requires stands { Stands seen state.old }
    requires pc { seen.pc ≡ pc }
    requires here { seen.pc < length seen.code.instructions }
    requires is { FormalTypeRuns seen.code.given is }
    requires clear { IsClear (table.prepare_name seen.code.marks (formal_type_view seen.code.given is) head (source_view source) (machine_of seen state.old held)) }
    requires lands { Lands seen (table.prepare_name seen.code.marks (formal_type_view seen.code.given is) head (source_view source) (machine_of seen state.old held)) }
    ensures { Goes seen state.new held result (table.prepare_name seen.code.marks (formal_type_view seen.code.given is) head (source_view source) (machine_of seen state.old held)) }
{
    match is {
        FormalType::Value(kind) => enter_aside(state, Purpose::Value, Some(kind), head, pc, held),
        FormalType::ByName(kind) => { ready(hold_thunk(state, false, Some(kind), head), pc) }
        FormalType::Procedure(_) | FormalType::Array { .. } => {
            ready(hold_source(state, source), pc)
        }
        FormalType::Result(_) | FormalType::ValueResult(_) => unreachable!(),
    }
}

/// What stands for nothing is prepared: by name its text is copied all the same.
fn prepare_nothing(state: &mut State, is: FormalType, head: u32, pc: u32, held: Held) -> Next
    ghost seen: { Seen }
    requires stands { Stands seen state.old }
    requires pc { seen.pc ≡ pc }
    requires here { seen.pc < length seen.code.instructions }
    requires is { FormalTypeRuns seen.code.given is }
    requires clear { IsClear (table.prepare_nothing seen.code.marks (formal_type_view seen.code.given is) head (machine_of seen state.old held)) }
    requires lands { Lands seen (table.prepare_nothing seen.code.marks (formal_type_view seen.code.given is) head (machine_of seen state.old held)) }
    ensures { Goes seen state.new held result (table.prepare_nothing seen.code.marks (formal_type_view seen.code.given is) head (machine_of seen state.old held)) }
{
    match is {
        FormalType::ByName(kind) => { ready(hold_thunk(state, false, Some(kind), head), pc) }
        _ => enter_aside(state, Purpose::Value, None, head, pc, held),
    }
}

/// What stands for a name is called. L1, L4.
pub fn call_through(
    state: &mut State,
    given: &Given,
    site: Place,
    call: u32,
    pc: u32,
    held: Held,
) -> Next
    ghost seen: { Seen }
    requires stands { Stands seen state.old }
    requires given { IsGiven seen given.now }
    requires pc { seen.pc ≡ pc }
    requires here { seen.pc < length seen.code.instructions }
    requires call { call < length seen.code.added.calls }
    requires clear { IsClear (row_of seen 0 (instr.CallThrough site call) (machine_of seen state.old held)) }
    requires lands { Lands seen (row_of seen 0 (instr.CallThrough site call) (machine_of seen state.old held)) }
    ensures { Goes seen state.new held result (row_of seen 0 (instr.CallThrough site call) (machine_of seen state.old held)) }
{
    let procedure = procedure_out(&state.store, given.code.call(call).source());
    call_procedure(state, given, site, None, procedure, pc, held)
}

/// The place of an actual, where its formal is assigned back; otherwise what would do so is stepped over.
pub fn place_back(
    state: &mut State,
    code: &Code,
    formal: u32,
    head: u32,
    pc: u32,
    held: Held,
) -> Next
    ghost seen: { Seen }
    requires stands { Stands seen state.old }
    requires code { seen.code ≡ code.now }
    requires pc { seen.pc ≡ pc }
    requires here { seen.pc < length seen.code.instructions }
    requires clear { IsClear (row_of seen 0 (instr.PlaceBack formal head) (machine_of seen state.old held)) }
    requires lands { Lands seen (row_of seen 0 (instr.PlaceBack formal head) (machine_of seen state.old held)) }
    ensures { Goes seen state.new held result (row_of seen 0 (instr.PlaceBack formal head) (machine_of seen state.old held)) }
{
    let Some(frame) = state.store.newest() else {
        unreachable!()
    };
    match formal_at(code, frame.head, formal) {
        FormalType::Result(_) | FormalType::ValueResult(_) => {
            enter_aside(state, Purpose::Place, None, head, pc, held)
        }
        _ => go_to(pc + 3, held),
    }
}
