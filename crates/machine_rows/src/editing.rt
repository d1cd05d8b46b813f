ghost use Rattle.std.specs.Prelude.{◌≡◌, ◌≤◌, ◌++◌, List, Ok};
ghost use Rattle.output_editing.specs.Layout.{Piece};
ghost use Rattle.output_editing.specs.Page.{HasPrinted};
ghost use Rattle.stack_code.specs.declared.instructions.Instr.TheVariants as instr;
ghost use Rattle.stack_code.specs.Limits.{KindRuns};
ghost use Rattle.machine_rows.specs.Assigned.{as_value};
ghost use Rattle.program_meaning.specs.Widths.{pieces_of};
ghost use Rattle.machine_rows.specs.Printed.{print_answer};
ghost use Rattle.machine_rows.specs.Seen.{Seen, Stands, Comes, Tells, machine_of, row_of, IsClear};

use crate::assigning::{give, spot_held};
use crate::held::{Halt, Held};
use crate::state::State;
use crate::variables::held_value;
use crate::widths::{widths_for, widths_now};
use output_editing::{Printer, Widths};
use stack_code::Code;
use value_ops::{Card, Fault, Limit, SimpleType, Text, Value};

/// The value that is held is written, on a new line or not, by the widths in the entry at a position of this text, as far
/// as they are set there. F17, L2.
pub fn write(
    state: &mut State,
    first: bool,
    position: Option<u32>,
    held: Held,
) -> Result<Held, Halt>
    ghost seen: { Seen }
    requires stands { Stands seen state.old }
    requires clear { IsClear (row_of seen 0 (instr.Write first position) (machine_of seen state.old held)) }
    ensures { Tells seen state.new held result (row_of seen 0 (instr.Write first position) (machine_of seen state.old held)) }
{
    let value = held_value(state, held);
    let (columns, blanks) = widths_now(state, position);
    match widths_for(&value, columns, blanks) {
        Ok(widths) => match print(&mut state.printer, first, &value, widths) {
            Ok(()) => Ok(held),
            Err(limit) => Err(Halt::Limit(limit)),
        },
        Err(fault) => Err(Halt::Fault(fault)),
    }
}

/// A value is printed, on a new line or not; of a reference, which isn't, only the new line is begun. L2.
fn print(printer: &mut Printer, first: bool, value: &Value, widths: Widths) -> Result<(), Limit>
    requires some { 1 ≤ widths.integer }
    requires columns { widths.integer ≤ 132 }
    requires blanks { widths.blanks ≤ 132 }
    ensures limit { printer.new.limit ≡ printer.old.limit }
    ensures printed { (pieces : List Piece) → HasPrinted printer.old pieces → HasPrinted printer.new (pieces ++ pieces_of first value.now widths) }
    ensures answer { (pieces : List Piece) → HasPrinted printer.old pieces → result ≡ print_answer first value.now widths printer.old.limit pieces }
{
    match value {
        Value::Reference(_) if !first => Ok(()),
        _ if first => printer.write_first(value, widths),
        _ => printer.write_on(value, widths),
    }
}

/// A datum is read and given to the place that is held. F11, F12, F4.
pub fn read(
    state: &mut State,
    code: &Code,
    cards: &[Card],
    next: bool,
    kind: SimpleType,
    held: Held,
) -> Result<Held, Halt>
    ghost seen: { Seen }
    requires stands { Stands seen state.old }
    requires code { seen.code ≡ code.now }
    requires cards { seen.setting.cards ≡ cards.now }
    requires kind { KindRuns seen.code.given kind }
    requires clear { IsClear (row_of seen 0 (instr.Read next kind) (machine_of seen state.old held)) }
    ensures { Comes seen state.new held result (row_of seen 0 (instr.Read next kind) (machine_of seen state.old held)) }
{
    let spot = spot_held(&state.wide, held);
    let value = state.input.read(cards, next, kind);
    give(state, code, kind, spot, value, held)
}

/// The next card is read and given to the place that is held. F11, F4.
pub fn read_card(
    state: &mut State,
    code: &Code,
    cards: &[Card],
    kind: SimpleType,
    held: Held,
) -> Result<Held, Halt>
    ghost seen: { Seen }
    requires stands { Stands seen state.old }
    requires code { seen.code ≡ code.now }
    requires cards { seen.setting.cards ≡ cards.now }
    requires kind { KindRuns seen.code.given kind }
    requires clear { IsClear (row_of seen 0 (instr.ReadCard kind) (machine_of seen state.old held)) }
    ensures { Comes seen state.new held result (row_of seen 0 (instr.ReadCard kind) (machine_of seen state.old held)) }
{
    let spot = spot_held(&state.wide, held);
    let card = card_value(state.input.read_card(cards));
    give(state, code, kind, spot, card, held)
}

/// A card, as a value.
fn card_value(card: Result<Text, Fault>) -> Result<Value, Fault>
    ensures { result ≡ as_value card }
{
    match card {
        Ok(text) => Ok(Value::Str(text)),
        Err(fault) => Err(fault),
    }
}

/// IOCONTROL of the integer that is held: 1 drops the rest of the card, 2 closes the open line.
pub fn io_control(state: &mut State, held: Held) -> Held
    ghost seen: { Seen }
    requires stands { Stands seen state.old }
    requires clear { IsClear (row_of seen 0 instr.IoControl (machine_of seen state.old held)) }
    ensures { Tells seen state.new held (Ok result) (row_of seen 0 instr.IoControl (machine_of seen state.old held)) }
{
    match held {
        Held::Integer(1) => state.input.skip_card(),
        Held::Integer(2) => state.printer.end_line(),
        Held::Integer(_) => {}
        _ => unreachable!(),
    }
    Held::Nothing
}
