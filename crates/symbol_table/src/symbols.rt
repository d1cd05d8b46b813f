ghost use Rattle.std.specs.Prelude.{◌≡◌, ◌-◌, ◌≤◌, ◌<◌, IfOk, OnOk, Some, None, drop, length, map, take};
ghost use Rattle.std.specs.List.{All};
ghost use Rattle.symbol_table.specs.Standings.{standard_count, standing_of};
ghost use Rattle.symbol_table.specs.Symbols as symbols;

use crate::here::{Here, further, number};
use crate::name_table::NameTable;
use crate::standings::{Class, Entry, Procedure, Standing};
use stack_code::{Formal, FormalType};
use std::alloc::{AllocError, Global};
use std::marker::Model;
use value_ops::{ClassId, SimpleType};

/// What names stand for, and what more is known of the classes and the procedures among them.
#[derive(Drop)]
pub struct Symbols {
    pub(crate) names: NameTable,
    /// The types of the fields of the classes that are declared, class by class.
    pub(crate) fields: Vec<SimpleType>,
    /// The formals of the procedures that are declared, procedure by procedure.
    pub(crate) formals: Vec<Formal>,
    /// The record class that each name is, by its number.
    classes: Vec<Option<ClassId>>,
}

impl Model for Symbols {
    ghost use Rattle.symbol_table.specs.Symbols.{SymbolsView};

    ghost Value = { SymbolsView };

    ghost view = { λ s. record { names = s.names.names; count = s.names.count; fields = s.fields.items; formals = s.formals.items; classes = s.classes.items } };
}

/// How much is declared.
#[derive(Clone, Copy)]
pub struct SymbolMark {
    /// How many names are.
    pub names: usize,
    /// How many fields of classes are.
    pub fields: usize,
    /// How many formals of procedures are.
    pub formals: usize,
}

/// What a formal stands for in its procedure's body.
fn standing_of_formal(formal: FormalType, entry: Entry) -> Standing
    ensures { result ≡ symbols.formal_standing formal entry }
{
    match formal {
        FormalType::ByName(kind) => Standing::NameFormal(kind, entry),
        FormalType::Value(kind) | FormalType::Result(kind) | FormalType::ValueResult(kind) => {
            Standing::Variable(kind, entry)
        }
        FormalType::Array {
            kind,
            dimensions: _,
        } => Standing::Array(kind, entry),
        FormalType::Procedure(result) => Standing::ProcedureFormal(result, entry),
    }
}

/// The class that each of so many names is, where these are the names of the classes.
fn class_numbers(
    alloc: Global,
    count: usize,
    class_names: &[u32],
) -> Result<Vec<Option<ClassId>>, AllocError>
    requires { All (λ name. name < count) class_names.now }
    ensures { IfOk result (λ classes. classes.items ≡ symbols.class_numbers count class_names.now) }
{
    let mut classes = Vec::new(alloc);
    for _name in 0..count {
        classes.push(None)?;
    }
    for (number, name) in class_names.iter().enumerate() {
        let Ok(class) = u16::try_from(number) else {
            return Err(AllocError);
        };
        classes[*name as usize] = Some(ClassId(class));
    }
    Ok(classes)
}

/// The formals from one on.
fn formals_from(formals: &[Formal], first: usize) -> &[Formal]
    ensures { result.now ≡ drop first formals.now }
{
    match formals.get(first..) {
        Some(behind) => behind,
        None => &[],
    }
}

/// So many formals from one on.
fn some_formals(
    alloc: Global,
    formals: &[Formal],
    first: usize,
    count: usize,
) -> Result<Vec<Formal>, AllocError>
    ensures { IfOk result (λ some. some.items ≡ take count (drop first formals.now)) }
{
    let behind = formals_from(formals, first);
    behind.iter().take(count).copied().collect(alloc)
}

impl Symbols {
    /// So many names, of which those of every deck stand for what they are, and these are the names of the classes.
    pub fn new(alloc: Global, count: usize, class_names: &[u32]) -> Result<Symbols, AllocError>
        requires { All (λ name. name < count) class_names.now }
        ensures { IfOk result (λ s. s ≡ symbols.only_standard count class_names.now) }
    {
        let names = NameTable::new(alloc, count)?;
        let classes = class_numbers(alloc, count, class_names)?;
        Ok(Symbols {
            names,
            fields: Vec::new(alloc),
            formals: Vec::new(alloc),
            classes,
        })
    }

    /// What a name stands for.
    pub fn standing(&self, name: u32) -> Standing
        ensures { result ≡ standing_of self.now.names name }
    {
        self.names.standing(name)
    }

    /// The class that a name is.
    pub fn class_of(&self, name: u32) -> Option<ClassId>
        ensures { result ≡ symbols.class_at self.now.classes name }
    {
        match self.classes.get(name as usize) {
            Some(class) => *class,
            None => None,
        }
    }

    /// The type of the field of a class at a position.
    pub fn field_type(&self, class: Class, position: usize) -> Option<SimpleType>
        ensures { result ≡ symbols.field_at self.now class position }
    {
        if position < class.count as usize {
            return self.fields.get(class.fields as usize + position).copied();
        }
        None
    }

    /// What the formal of a procedure at a position is.
    pub fn formal(&self, procedure: Procedure, position: usize) -> Option<FormalType>
        ensures { result ≡ symbols.formal_at self.now procedure position }
    {
        if position < procedure.count as usize {
            let formal = self.formals.get(procedure.formals as usize + position)?;
            return Some(formal.is);
        }
        None
    }

    /// The formals of a procedure.
    pub fn formals(&self, alloc: Global, procedure: Procedure) -> Result<Vec<Formal>, AllocError>
        ensures { IfOk result (λ formals. formals.items ≡ symbols.formals_of self.now procedure) }
    {
        let first = procedure.formals as usize;
        some_formals(alloc, &self.formals, first, procedure.count as usize)
    }

    /// How much is declared by now.
    pub fn mark(&self) -> SymbolMark
        ensures all { result ≡ symbols.mark_of self.now }
        ensures standard { standard_count ≤ result.names }
    {
        SymbolMark {
            names: self.names.declared(),
            fields: self.fields.len(),
            formals: self.formals.len(),
        }
    }

    /// Takes back what is declared behind a mark.
    pub fn take_back(&mut self, mark: SymbolMark)
        requires { standard_count ≤ mark.names }
        ensures { self.new ≡ symbols.taken_back self.old mark }
    {
        self.names.take_back(mark.names);
        self.fields.truncate(mark.fields);
        self.formals.truncate(mark.formals);
    }

    /// Declares the control name of a FOR.
    pub fn declare_control(&mut self, name: u32, entry: Entry) -> Result<(), AllocError>
        requires { name < self.old.count }
        ensures { OnOk result (self.new ≡ symbols.with_name self.old name (symbols.control_standing entry)) }
    {
        self.names.declare(name, Standing::Control(entry))
    }

    /// Declares the formals of a procedure in its body, whose text is so deep.
    pub fn declare_formals(&mut self, level: u16, procedure: Procedure) -> Result<(), AllocError>
        requires { All (λ formal. formal.name < self.old.count) (symbols.formals_of self.old procedure) }
        ensures { OnOk result (self.new ≡ symbols.with_formals self.old level (symbols.formals_of self.old procedure)) }
    {
        let first = procedure.formals as usize;
        for index in (0..procedure.count as usize).rev() {
            if let Some(formal) = self.formals.get(first + index) {
                let formal = *formal;
                let position = further(number(index)?, 1)?;
                let standing = standing_of_formal(formal.is, Entry { level, position });
                self.names.declare(formal.name, standing)?;
            }
        }
        Ok(())
    }
}
