ghost use Rattle.std.specs.Prelude.{◌≡◌, ◌<◌, ◌≤◌, ℕ, List, length, Ok, Some, IsSome, OnErr, slice_get};
ghost use Rattle.stack_code.specs.declared.instructions.Instr.TheVariants as instr;
ghost use Rattle.cell_store.specs.declared.cells.Wide.{Wide};
ghost use Rattle.program_meaning.specs.Operations as operations;
ghost use Rattle.program_meaning.specs.Operations.{gives};
ghost use Rattle.machine_rows.specs.Answers.{IsAnswered, answered, unary_of, binary_words, relation_words, relation_of};
ghost use Rattle.machine_rows.specs.Contents.{string_of, string_in};
ghost use Rattle.machine_rows.specs.Kinds.{WideFits};
ghost use Rattle.stack_code.specs.CodeView.{Given};
ghost use Rattle.short_text.specs.Blanks.{blanks};
ghost use Rattle.short_text.specs.Order.{bytes_cmp};
ghost use Rattle.value_ops.specs.Strings.{compared};
ghost use Rattle.machine_rows.specs.Seen.{Seen, Stands, Comes, machine_of, row_of, IsClear};

use crate::held::{Halt, Held, reference};
use crate::state::State;
use crate::variables::hold_value;
use algolw_tree::{Op, RelOp, UnaryOp};
use cell_store::{Wide, Word};
use std::cmp::Ordering;
use value_ops::{
    ClassId, Fault, Text, Value, abs, add, and, bitstring, code, decode, div, mul, negate, not,
    number, odd, or, rem, shift, sub,
};

/// An integer or a fault.
#[inline(always)]
fn integer(answer: Result<i32, Fault>) -> Result<Held, Halt>
    ensures { (w : Wide) → answered w result ≡ operations.integer answer }
{
    match answer {
        Ok(number) => Ok(Held::Integer(number)),
        Err(fault) => Err(Halt::Fault(fault)),
    }
}

/// Bits or a fault.
fn bits(answer: Result<u32, Fault>) -> Result<Held, Halt>
    ensures { (w : Wide) → answered w result ≡ operations.bits answer }
{
    match answer {
        Ok(bits) => Ok(Held::Bits(bits)),
        Err(fault) => Err(Halt::Fault(fault)),
    }
}

/// A string or a fault.
pub(crate) fn string(state: &mut State, answer: Result<Text, Fault>) -> Result<Held, Halt>
    ensures answer { answered state.new.wide result ≡ operations.string answer }
    ensures kept { state.new ≡ record state.old { wide = state.new.wide } }
    ensures unchanged { OnErr result (state.new ≡ state.old) }
    ensures fits { (g : Given) → WideFits g state.old.wide → WideFits g state.new.wide }
{
    match answer {
        Ok(text) => Ok(hold_value(state, Value::Str(text))),
        Err(fault) => Err(Halt::Fault(fault)),
    }
}

/// An operation on the value that is held.
pub fn unary(state: &mut State, op: UnaryOp, held: Held) -> Result<Held, Halt>
    ghost seen: { Seen }
    requires stands { Stands seen state.old }
    requires clear { IsClear (row_of seen 0 (instr.Unary op) (machine_of seen state.old held)) }
    ensures { Comes seen state.new held result (row_of seen 0 (instr.Unary op) (machine_of seen state.old held)) }
{
    unary_operation(state, op, held)
}

/// The same.
fn unary_operation(state: &mut State, op: UnaryOp, held: Held) -> Result<Held, Halt>
    requires { IsAnswered (unary_of op state.old.wide held) }
    ensures answer { answered state.new.wide result ≡ unary_of op state.old.wide held }
    ensures kept { state.new ≡ record state.old { wide = state.new.wide } }
    ensures unchanged { OnErr result (state.new ≡ state.old) }
    ensures fits { (g : Given) → WideFits g state.old.wide → WideFits g state.new.wide }
{
    match held {
        Held::Integer(value) => integer_changed(state, op, value),
        Held::True => Ok(logical_changed(op, true)),
        Held::False => Ok(logical_changed(op, false)),
        Held::Bits(value) => Ok(bits_changed(op, value)),
        Held::Wide => Ok(code_of(state, op)),
        _ => unreachable!(),
    }
}

/// An operation on an integer.
fn integer_changed(state: &mut State, op: UnaryOp, value: i32) -> Result<Held, Halt>
    requires { IsAnswered (operations.unary op (Value.Integer value)) }
    ensures answer { answered state.new.wide result ≡ operations.unary op (Value.Integer value) }
    ensures kept { state.new ≡ record state.old { wide = state.new.wide } }
    ensures unchanged { OnErr result (state.new ≡ state.old) }
    ensures fits { (g : Given) → WideFits g state.old.wide → WideFits g state.new.wide }
{
    match op {
        UnaryOp::Minus => integer(negate(value)),
        UnaryOp::Absolute => integer(abs(value)),
        UnaryOp::IsOdd => Ok(Held::logical(odd(value))),
        UnaryOp::ToBits => Ok(Held::Bits(bitstring(value))),
        UnaryOp::ToCharacter => string(state, code(value)),
        _ => unreachable!(),
    }
}

/// An operation on a truth value.
fn logical_changed(op: UnaryOp, truth: bool) -> Held
    requires { IsAnswered (operations.unary op (Value.Logical truth)) }
    ensures { (w : Wide) → answered w (Ok result) ≡ operations.unary op (Value.Logical truth) }
{
    match op {
        UnaryOp::Not => Held::logical(!truth),
        _ => unreachable!(),
    }
}

/// An operation on bits.
fn bits_changed(op: UnaryOp, value: u32) -> Held
    requires { IsAnswered (operations.unary op (Value.Bits value)) }
    ensures { (w : Wide) → answered w (Ok result) ≡ operations.unary op (Value.Bits value) }
{
    match op {
        UnaryOp::Complement => Held::Bits(not(value)),
        UnaryOp::ToNumber => Held::Integer(number(value)),
        _ => unreachable!(),
    }
}

/// The code of the string that is held.
fn code_of(state: &State, op: UnaryOp) -> Held
    requires { IsAnswered (unary_of op state.now.wide Held.Wide) }
    ensures { (w : Wide) → answered w (Ok result) ≡ unary_of op state.now.wide Held.Wide }
{
    match (op, &state.wide) {
        (UnaryOp::ToCode, Wide::Str(text)) => Held::Integer(i32::from(text.as_slice()[0])),
        _ => unreachable!(),
    }
}

/// An operation on the newest cell, which is given back, and the value that is held.
#[inline(always)]
pub fn binary(state: &mut State, op: Op, held: Held) -> Result<Held, Halt>
    ghost seen: { Seen }
    requires stands { Stands seen state.old }
    requires clear { IsClear (row_of seen 0 (instr.Binary op) (machine_of seen state.old held)) }
    ensures { Comes seen state.new held result (row_of seen 0 (instr.Binary op) (machine_of seen state.old held)) }
{
    let newest = state.store.live() - 1;
    let left = state.store.live_cell(newest);
    state.store.cut_to(newest);
    operation(op, left, held)
}

/// An operation on two words.
#[inline(always)]
fn operation(op: Op, left: Word, right: Held) -> Result<Held, Halt>
    requires { IsAnswered (binary_words op left right) }
    ensures { (w : Wide) → answered w result ≡ binary_words op left right }
{
    match (left, right) {
        (Word::Integer(left), Held::Integer(right)) => { integer_operation(op, left, right) }
        (Word::Bits(left), Held::Integer(amount)) => shifted(op, left, amount),
        (Word::Bits(left), Held::Bits(right)) => { Ok(Held::Bits(bits_operation(op, left, right))) }
        _ => unreachable!(),
    }
}

/// An operation on two integers.
#[inline(always)]
pub fn integer_operation(op: Op, left: i32, right: i32) -> Result<Held, Halt>
    requires { IsAnswered (operations.binary op (Value.Integer left) (Value.Integer right)) }
    ensures { (w : Wide) → answered w result ≡ operations.binary op (Value.Integer left) (Value.Integer right) }
{
    match op {
        Op::Plus => integer(add(left, right)),
        Op::Minus => integer(sub(left, right)),
        Op::Times => integer(mul(left, right)),
        Op::Div => integer(div(left, right)),
        Op::Rem => integer(rem(left, right)),
        _ => unreachable!(),
    }
}

/// Bits that are shifted.
fn shifted(op: Op, left: u32, amount: i32) -> Result<Held, Halt>
    requires { IsAnswered (operations.binary op (Value.Bits left) (Value.Integer amount)) }
    ensures { (w : Wide) → answered w result ≡ operations.binary op (Value.Bits left) (Value.Integer amount) }
{
    match op {
        Op::Shl => bits(shift(left, amount, true)),
        Op::Shr => bits(shift(left, amount, false)),
        _ => unreachable!(),
    }
}

/// An operation on the bits of both.
fn bits_operation(op: Op, left: u32, right: u32) -> u32
    requires { IsAnswered (operations.binary op (Value.Bits left) (Value.Bits right)) }
    ensures { operations.binary op (Value.Bits left) (Value.Bits right) ≡ gives (Value.Bits result) }
{
    match op {
        Op::And => and(left, right),
        Op::Or => or(left, right),
        _ => unreachable!(),
    }
}

/// A comparison of the newest cell, which is given back, and the value that is held.
#[inline(always)]
pub fn relation(state: &mut State, op: RelOp, held: Held) -> Held
    ghost seen: { Seen }
    requires stands { Stands seen state.old }
    requires clear { IsClear (row_of seen 0 (instr.Relation op) (machine_of seen state.old held)) }
    ensures { Comes seen state.new held (Ok result) (row_of seen 0 (instr.Relation op) (machine_of seen state.old held)) }
{
    let newest = state.store.live() - 1;
    let truth = relation_holds(state, op, newest, held);
    state.store.cut_to(newest);
    Held::logical(truth)
}

/// A comparison of a cell and the value that is held.
#[inline(always)]
fn relation_holds(state: &State, op: RelOp, cell: u32, held: Held) -> bool
    requires { IsAnswered (relation_of op (slice_get state.now.store.cells cell) state.now.wide held) }
    ensures { relation_of op (slice_get state.now.store.cells cell) state.now.wide held ≡ gives (Value.Logical result) }
{
    match held {
        Held::Wide => holds(op, strings_compared(state, cell)),
        right => words_compared(op, state.store.live_cell(cell), right),
    }
}

/// A comparison of two words.
#[inline(always)]
fn words_compared(op: RelOp, left: Word, right: Word) -> bool
    requires { IsAnswered (relation_words op left right) }
    ensures { relation_words op left right ≡ gives (Value.Logical result) }
{
    match (left, right) {
        (Word::Integer(left), Word::Integer(right)) => integers_compared(op, left, right),
        (Word::Bits(left), Word::Bits(right)) => holds_of_equals(op, left == right),
        (Word::Record(left), Word::Record(right)) => {
            holds_of_equals(op, Word::told(left) == Word::told(right))
        }
        (Word::Null, Word::Null) => holds_of_equals(op, true),
        (Word::Null, Word::Record(_)) => holds_of_equals(op, false),
        (Word::Record(_), Word::Null) => holds_of_equals(op, false),
        (Word::True, Word::True) => holds_of_equals(op, true),
        (Word::True, Word::False) => holds_of_equals(op, false),
        (Word::False, Word::True) => holds_of_equals(op, false),
        (Word::False, Word::False) => holds_of_equals(op, true),
        _ => unreachable!(),
    }
}

/// A comparison of two integers.
#[inline(always)]
pub fn integers_compared(op: RelOp, left: i32, right: i32) -> bool
    ensures { operations.relation op (Value.Integer left) (Value.Integer right) ≡ gives (Value.Logical result) }
{
    holds(op, left.cmp(&right))
}

/// Whether a comparison holds where the operands stand so.
#[inline(always)]
fn holds(op: RelOp, order: Ordering) -> bool
    ensures { result ≡ operations.holds op order }
{
    match op {
        RelOp::Equal => order == Ordering::Equal,
        RelOp::NotEqual => order != Ordering::Equal,
        RelOp::Less => order == Ordering::Less,
        RelOp::LessEqual => order != Ordering::Greater,
        RelOp::Greater => order == Ordering::Greater,
        RelOp::GreaterEqual => order != Ordering::Less,
    }
}

/// Whether a comparison holds of operands that have no order.
#[inline(always)]
fn holds_of_equals(op: RelOp, same: bool) -> bool
    requires { IsAnswered (operations.holds_of_equals op same) }
    ensures { operations.holds_of_equals op same ≡ gives (Value.Logical result) }
{
    match op {
        RelOp::Equal => same,
        RelOp::NotEqual => !same,
        _ => unreachable!(),
    }
}

/// How the string in a cell stands to the one that is held.
fn strings_compared(state: &State, cell: u32) -> Ordering
    requires cell { IsSome (string_in (slice_get state.now.store.cells cell)) }
    requires wide { IsSome (string_of state.now.wide) }
    ensures { (a b : List ℕ) → string_in (slice_get state.now.store.cells cell) ≡ Some a → string_of state.now.wide ≡ Some b → result ≡ compared a b }
{
    match (state.store.wide_cell(cell), &state.wide) {
        (Some(Wide::Str(left)), Wide::Str(right)) => texts_compared(left, right),
        _ => unreachable!(),
    }
}

/// How a string stands to another, the shorter one filled with blanks.
fn texts_compared(left: &Text, right: &Text) -> Ordering
    ensures { result ≡ compared left.now right.now }
{
    if left.len() < right.len() {
        compared_to_longer(left.as_slice(), right.as_slice())
    } else if right.len() < left.len() {
        compared_to_shorter(left.as_slice(), right.as_slice())
    } else {
        left.as_slice().cmp(right.as_slice())
    }
}

/// How characters stand to more of them, filled with blanks.
fn compared_to_longer(short: &[u8], long: &[u8]) -> Ordering
    requires shorter { length short.now ≤ length long.now }
    requires most { length long.now ≤ 256 }
    ensures { result ≡ compared short.now long.now }
{
    let (first, rest) = long.split_at(short.len());
    short.cmp(first).then(blanks_compared(rest))
}

/// How characters stand to fewer of them, filled with blanks.
fn compared_to_shorter(long: &[u8], short: &[u8]) -> Ordering
    requires shorter { length short.now ≤ length long.now }
    requires most { length long.now ≤ 256 }
    ensures { result ≡ compared long.now short.now }
{
    let (first, rest) = long.split_at(short.len());
    first.cmp(short).then(compared_to_blanks(rest))
}

/// How as many blanks stand to characters.
fn blanks_compared(rest: &[u8]) -> Ordering
    requires { length rest.now ≤ 256 }
    ensures { result ≡ bytes_cmp (blanks (length rest.now)) rest.now }
{
    let blanks = [b' '; 256];
    blanks[..rest.len()].cmp(rest)
}

/// How characters stand to as many blanks.
fn compared_to_blanks(rest: &[u8]) -> Ordering
    requires { length rest.now ≤ 256 }
    ensures { result ≡ bytes_cmp rest.now (blanks (length rest.now)) }
{
    let blanks = [b' '; 256];
    rest.cmp(&blanks[..rest.len()])
}

/// Whether the record that is held is of a class.
pub fn is_class(state: &State, class: ClassId, held: Held) -> Held
    ghost seen: { Seen }
    requires stands { Stands seen state.now }
    requires class { class.0 < length seen.code.given.class_places }
    requires clear { IsClear (row_of seen 0 (instr.IsClass class) (machine_of seen state.now held)) }
    ensures { Comes seen state.now held (Ok result) (row_of seen 0 (instr.IsClass class) (machine_of seen state.now held)) }
{
    match reference(held) {
        None => Held::False,
        Some(record) => Held::logical(state.records.class_of(record) == class),
    }
}
