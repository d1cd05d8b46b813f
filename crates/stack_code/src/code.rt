ghost use Rattle.std.specs.Prelude.{◌≡◌, ◌<◌, ◌≤◌, IfOk, OnErr, OnOk, length, slice_index_or, true};
ghost use Rattle.record_classes.specs.Classes.{class_of, has, set_of};
ghost use Rattle.stack_code.specs.CodeView.{GivenFits, InstrFits, ProcedureFits, TextFits};
ghost use Rattle.stack_code.specs.Limits.{CodeRuns, InstrRuns, ProcedureRuns, TextRuns, is_instr};
ghost use Rattle.stack_code.specs.Making.{given_by, no_instructions, with_instruction, with_replaced, with_marks, with_string, with_procedure, with_text, with_call, with_stars};

use crate::calls::ComparedCall;
use crate::heads::{CodedName, ProcedureHead, Stars, TextHead};
use crate::instructions::{Coded, Instr};
use crate::limits::MOST_DIMENSIONS;
use chunked_vec::ChunkedVec;
use record_classes::ClassTable;
use std::alloc::{AllocError, Global};
use std::marker::Model;
use value_ops::{ClassId, Name, Place, SetId, Text};

/// What numbers stand for in the code of a program, before there is any instruction.
#[derive(Drop)]
pub struct ProgramTables {
    /// The first token of each statement.
    pub statements: Vec<Place>,
    /// The names, as dumps show them.
    pub names: Vec<CodedName>,
    /// The record classes, and the sets of them.
    pub classes: ClassTable,
    /// Where each class is declared.
    pub class_places: Vec<Place>,
}

/// The code of a program: its instructions, and what the numbers in them stand for. Each of these numbers is one that the
/// code has, and all that it has is within a machine's limits: a string has 1 to 256 characters, an array at most 8
/// dimensions, and a procedure at most 65,536 formals. What is beyond them is not taken, and answered as want of memory:
/// no program without faults has it.
#[derive(Drop)]
pub struct Code {
    pub(crate) instructions: ChunkedVec<Coded>,
    marks: u32,
    tables: ProgramTables,
    strings: Vec<Text>,
    procedures: Vec<ProcedureHead>,
    pub(crate) texts: ChunkedVec<TextHead>,
    pub(crate) calls: ChunkedVec<ComparedCall>,
    stars: Vec<Stars>,
}

impl Model for Code {
    ghost use Rattle.stack_code.specs.CodeView.{CodeView};

    ghost Value = { CodeView };

    ghost use Rattle.stack_code.specs.CodeView.{CodeFits};
    ghost use Rattle.stack_code.specs.Limits.{IsWithin};
    ghost use Rattle.stack_code.specs.Making.{given_by, added_by};

    ghost view = { λ c. record { instructions = c.instructions; marks = c.marks; given = given_by c.tables; added = added_by c.strings c.procedures c.texts c.calls c.stars } };

    ghost invariant = { λ c. CodeFits (record { instructions = c.instructions; marks = c.marks; given = given_by c.tables; added = added_by c.strings c.procedures c.texts c.calls c.stars }) × IsWithin (record { instructions = c.instructions; marks = c.marks; given = given_by c.tables; added = added_by c.strings c.procedures c.texts c.calls c.stars }) };
}

/// The next number of a list so long. Where it has none the answer is want of memory.
fn next_number(len: usize) -> Result<u32, AllocError>
    ensures { IfOk result (λ n. n ≡ len) }
{
    let Ok(number) = u32::try_from(len) else {
        return Err(AllocError);
    };
    Ok(number)
}

/// What is beyond a machine's limits is want of memory.
fn within(limits: bool) -> Result<(), AllocError>
    ensures { OnOk result (limits ≡ true) }
{
    if limits { Ok(()) } else { Err(AllocError) }
}

/// What a compiler does.
impl Code {
    /// No instructions, with these tables.
    pub fn new(tables: ProgramTables, alloc: Global) -> Code
        requires { GivenFits (given_by tables) }
        ensures { result ≡ no_instructions tables }
    {
        Code {
            instructions: ChunkedVec::new(alloc),
            marks: 0,
            tables,
            strings: Vec::new(alloc),
            procedures: Vec::new(alloc),
            texts: ChunkedVec::new(alloc),
            calls: ChunkedVec::new(alloc),
            stars: Vec::new(alloc),
        }
    }

    /// An instruction more, of a statement; its number.
    pub fn append(&mut self, at: u32, does: Instr) -> Result<u32, AllocError>
        requires { InstrFits self.old.given self.old.added does }
        ensures number { IfOk result (λ n. n ≡ length self.old.instructions) }
        ensures added { OnOk result (self.new ≡ with_instruction self.old at does) }
        ensures unchanged { OnErr result (self.new ≡ self.old) }
    {
        within(does.is_within_limits())?;
        let number = next_number(self.instructions.len())?;
        self.instructions.push(Coded { at, does })?;
        Ok(number)
    }

    /// Another instruction in the place of one, in the same statement.
    pub fn replace(&mut self, number: u32, does: Instr)
        requires there { number < length self.old.instructions }
        requires fits { InstrFits self.old.given self.old.added does }
        requires within { is_instr does ≡ true }
        ensures { self.new ≡ with_replaced self.old number does }
    {
        self.instructions[number as usize].does = does;
    }

    /// How many marks a text may have in each other.
    pub fn set_marks(&mut self, marks: u32)
        ensures { self.new ≡ with_marks self.old marks }
    {
        self.marks = marks;
    }

    /// A string more; its number.
    pub fn add_string(&mut self, text: Text) -> Result<u32, AllocError>
        ensures number { IfOk result (λ n. n ≡ length self.old.added.strings) }
        ensures added { OnOk result (self.new ≡ with_string self.old text) }
        ensures unchanged { OnErr result (self.new ≡ self.old) }
    {
        let number = next_number(self.strings.len())?;
        self.strings.push(text)?;
        Ok(number)
    }

    /// The head of a procedure more; its number.
    pub fn add_procedure(&mut self, head: ProcedureHead) -> Result<u32, AllocError>
        requires { ProcedureFits self.old.given head }
        ensures number { IfOk result (λ n. n ≡ length self.old.added.procedures) }
        ensures added { OnOk result (self.new ≡ with_procedure self.old head) }
        ensures unchanged { OnErr result (self.new ≡ self.old) }
    {
        within(head.is_within_limits())?;
        let number = next_number(self.procedures.len())?;
        self.procedures.push(head)?;
        Ok(number)
    }

    /// The head of an actual's text more; its number.
    pub fn add_text(&mut self, head: TextHead) -> Result<u32, AllocError>
        requires { TextFits self.old.given head }
        ensures number { IfOk result (λ n. n ≡ length self.old.added.texts) }
        ensures added { OnOk result (self.new ≡ with_text self.old head) }
        ensures unchanged { OnErr result (self.new ≡ self.old) }
    {
        within(head.is_within_limits())?;
        let number = next_number(self.texts.len())?;
        self.texts.push(head)?;
        Ok(number)
    }

    /// A call that compares more; its number.
    pub fn add_call(&mut self, call: ComparedCall) -> Result<u32, AllocError>
        ensures number { IfOk result (λ n. n ≡ length self.old.added.calls) }
        ensures added { OnOk result (self.new ≡ with_call self.old call) }
        ensures unchanged { OnErr result (self.new ≡ self.old) }
    {
        let number = next_number(self.calls.len())?;
        self.calls.push(call)?;
        Ok(number)
    }

    /// A list of stars more; its number.
    pub fn add_stars(&mut self, stars: Stars) -> Result<u32, AllocError>
        ensures number { IfOk result (λ n. n ≡ length self.old.added.stars) }
        ensures added { OnOk result (self.new ≡ with_stars self.old stars) }
        ensures unchanged { OnErr result (self.new ≡ self.old) }
    {
        within(stars.are.len() <= MOST_DIMENSIONS)?;
        let number = next_number(self.stars.len())?;
        self.stars.push(stars)?;
        Ok(number)
    }
}

/// What a machine reads.
impl Code {
    /// How many instructions there are.
    pub fn instruction_count(&self) -> usize
        ensures { result ≡ length self.now.instructions }
    {
        self.instructions.len()
    }

    /// An instruction with the number of its statement.
    pub fn coded(&self, number: u32) -> Coded
        requires { number < length self.now.instructions }
        ensures value { result ≡ slice_index_or self.now.instructions number result }
        ensures runs { InstrRuns self.now.given self.now.added result.does }
    {
        self.instructions[number as usize]
    }

    /// How many marks a text may have in each other.
    pub fn marks(&self) -> u32
        ensures value { result ≡ self.now.marks }
        ensures runs { CodeRuns self.now }
    {
        self.marks
    }

    /// How many statements there are.
    pub fn statement_count(&self) -> usize
        ensures { result ≡ length self.now.given.statements }
    {
        self.tables.statements.len()
    }

    /// The first token of a statement.
    pub fn statement_place(&self, number: u32) -> Place
        requires { number < length self.now.given.statements }
        ensures { result ≡ slice_index_or self.now.given.statements number result }
    {
        self.tables.statements[number as usize]
    }

    /// A name.
    pub fn name(&self, number: u32) -> &CodedName
        requires { number < length self.now.given.names }
        ensures { result.now ≡ slice_index_or self.now.given.names number result.now }
    {
        &self.tables.names[number as usize]
    }

    /// Whether a set has a class.
    pub fn set_has(&self, set: SetId, class: ClassId) -> bool
        requires { set.0 < length self.now.given.classes.sets }
        ensures { result ≡ has (set_of self.now.given.classes set) class }
    {
        self.tables.classes.set_has(set, class)
    }

    /// The classes of a set.
    pub fn set_classes(&self, set: SetId) -> &[ClassId]
        requires { set.0 < length self.now.given.classes.sets }
        ensures { result.now ≡ set_of self.now.given.classes set }
    {
        self.tables.classes.set_classes(set)
    }

    /// The name of a class.
    pub fn class_name(&self, class: ClassId) -> &Name
        requires { class.0 < length self.now.given.classes.classes }
        ensures { result.now ≡ (class_of self.now.given.classes class).name }
    {
        self.tables.classes.class_name(class)
    }

    /// A string.
    pub fn string(&self, number: u32) -> &Text
        requires { number < length self.now.added.strings }
        ensures { result.now ≡ slice_index_or self.now.added.strings number result.now }
    {
        &self.strings[number as usize]
    }

    /// The head of a procedure.
    pub fn procedure(&self, number: u32) -> &ProcedureHead
        requires { number < length self.now.added.procedures }
        ensures value { result.now ≡ slice_index_or self.now.added.procedures number result.now }
        ensures runs { ProcedureRuns self.now.given result.now }
    {
        &self.procedures[number as usize]
    }

    /// The head of an actual's text.
    pub fn text(&self, number: u32) -> TextHead
        requires { number < length self.now.added.texts }
        ensures value { result ≡ slice_index_or self.now.added.texts number result }
        ensures runs { TextRuns self.now.given result }
    {
        self.texts[number as usize]
    }

    /// A call that compares.
    pub fn call(&self, number: u32) -> &ComparedCall
        requires { number < length self.now.added.calls }
        ensures { result.now ≡ slice_index_or self.now.added.calls number result.now }
    {
        &self.calls[number as usize]
    }

    /// A list of stars.
    pub fn stars(&self, number: u32) -> &Stars
        requires { number < length self.now.added.stars }
        ensures { result.now ≡ slice_index_or self.now.added.stars number result.now }
    {
        &self.stars[number as usize]
    }
}
