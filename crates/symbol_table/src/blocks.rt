ghost use Rattle.std.specs.Prelude.{◌≡◌, ◌-◌, ◌∷◌, ◌++◌, ◌<◌, [], IfOk, OnOk, length, replicate};
ghost use Rattle.std.specs.List.{All};
ghost use Rattle.symbol_table.specs.Blocks as blocks;
ghost use Rattle.symbol_table.specs.Parts.{item_labels};
ghost use Rattle.symbol_table.specs.Symbols.{class_at};

use crate::here::{Here, further, number};
use crate::standings::{Class, Entry, Procedure, Standing};
use crate::symbols::Symbols;
use algolw_tree::{Mode, Targets, TypedClass, TypedDecl, TypedFormal, TypedItem, TypedProc};
use stack_code::{Formal, FormalType};
use std::alloc::AllocError;
use value_ops::{ClassId, SimpleType};

/// Where the names of declarations stand: what the next one has.
#[derive(Clone, Copy)]
pub struct Cursor {
    /// The position of its first entry.
    pub position: u32,
    /// The target of a procedure.
    pub target: u32,
    /// Where the types of a class's fields begin.
    pub fields: u32,
    /// Where a procedure's formals begin.
    pub formals: u32,
}

/// What names that have an entry each stand for.
#[derive(Clone, Copy)]
enum Holding {
    /// Variables of a type.
    Variable(SimpleType),
    /// Arrays of a type.
    Array(SimpleType),
}

impl Holding {
    /// What a name with this entry stands for.
    fn standing(self, entry: Entry) -> Standing
        ensures { result ≡ blocks.standing_held self entry }
    {
        match self {
            Holding::Variable(kind) => Standing::Variable(kind, entry),
            Holding::Array(kind) => Standing::Array(kind, entry),
        }
    }
}

/// How many entries a declaration makes.
pub fn entries_of(decl: &TypedDecl) -> usize
    ensures { result ≡ blocks.decl_entries decl.now }
{
    match decl {
        TypedDecl::Simple(_, names) | TypedDecl::Array(_, names, _) => names.len(),
        TypedDecl::Proc(_) | TypedDecl::Class(_) => 0,
    }
}

/// How many entries declarations make.
pub fn entry_count(decls: &[TypedDecl]) -> Result<u32, AllocError>
    ensures { IfOk result (λ n. n ≡ blocks.entry_count decls.now) }
{
    let mut count = 0;
    for decl in decls {
        count = further(count, number(entries_of(decl))?)?;
    }
    Ok(count)
}

/// How many procedures a declaration declares.
pub fn procedures_of(decl: &TypedDecl) -> u32
    ensures { result ≡ blocks.decl_procedures decl.now }
{
    match decl {
        TypedDecl::Proc(_) => 1,
        TypedDecl::Simple(_, _) | TypedDecl::Array(_, _, _) | TypedDecl::Class(_) => 0,
    }
}

/// How many declarations are procedures.
pub fn procedure_count(decls: &[TypedDecl]) -> Result<u32, AllocError>
    ensures { IfOk result (λ n. n ≡ blocks.procedure_count decls.now) }
{
    let mut count = 0;
    for decl in decls {
        count = further(count, procedures_of(decl))?;
    }
    Ok(count)
}

/// How many formals a procedure has.
fn formal_count(procedure: &TypedProc) -> Result<u32, AllocError>
    ensures { IfOk result (λ n. n ≡ blocks.formal_count (blocks.formals_in procedure.now)) }
{
    let mut count = 0;
    for formal in &procedure.formals {
        count = further(count, number(formal.names.len())?)?;
    }
    Ok(count)
}

/// How many fields a class has.
fn field_count(class: &TypedClass) -> Result<u32, AllocError>
    ensures { IfOk result (λ n. n ≡ blocks.field_count class.now.groups.items) }
{
    let mut count = 0;
    for (_, names) in &class.groups {
        count = further(count, number(names.len())?)?;
    }
    Ok(count)
}

/// What formals that are declared together are: procedures, where they have no type.
fn formal_type(formal: &TypedFormal) -> FormalType
    ensures { result ≡ blocks.formal_type formal.now }
{
    let Some(kind) = formal.spec else {
        return FormalType::Procedure(None);
    };
    match formal.mode {
        Mode::ByName => FormalType::ByName(kind),
        Mode::Value => FormalType::Value(kind),
        Mode::Result => FormalType::Result(kind),
        Mode::ValueResult => FormalType::ValueResult(kind),
        Mode::Array => FormalType::Array {
            kind,
            dimensions: formal.dimensions,
        },
        Mode::Procedure => FormalType::Procedure(Some(kind)),
    }
}

impl Symbols {
    /// Declares the names of a block, the last one first. Their entries begin here; each procedure has a target, from this
    /// one on, and behind them each item. Labels stand at the block's second mark, which is behind its entries.
    pub fn declare_block(
        &mut self,
        here: Here,
        target: u32,
        decls: &[TypedDecl],
        items: &[TypedItem],
    ) -> Result<(), AllocError>
        requires { All (λ name. name.0 < self.old.count) (blocks.block_names self.old here target decls.now items.now []) }
        ensures { OnOk result (self.new ≡ blocks.with_block self.old here target decls.now items.now) }
    {
        self.add_parts(decls)?;
        let end = self.end_of(here, target, decls)?;
        self.declare_labels(here.level, end, items)?;
        self.declare_decls(here.level, end, decls)
    }
}

impl Symbols {
    /// Where the declarations of a block end, whose fields and formals are added by now.
    fn end_of(&self, here: Here, target: u32, decls: &[TypedDecl]) -> Result<Cursor, AllocError>
        ensures { IfOk result (λ end. end ≡ blocks.end_at here target decls.now (length self.now.fields) (length self.now.formals)) }
    {
        Ok(Cursor {
            position: further(here.entries, entry_count(decls)?)?,
            target: further(target, procedure_count(decls)?)?,
            fields: number(self.fields.len())?,
            formals: number(self.formals.len())?,
        })
    }

    /// Adds the fields of the classes and the formals of the procedures that are declared.
    fn add_parts(&mut self, decls: &[TypedDecl]) -> Result<(), AllocError>
        ensures { OnOk result (self.new ≡ blocks.with_parts self.old decls.now) }
    {
        for decl in decls {
            self.add_part(decl)?;
        }
        Ok(())
    }

    /// Adds the fields or the formals of a declaration.
    fn add_part(&mut self, decl: &TypedDecl) -> Result<(), AllocError>
        ensures { OnOk result (self.new ≡ record self.old {
          fields = self.old.fields ++ blocks.decl_fields decl.now;
          formals = self.old.formals ++ blocks.decl_formals decl.now;
        }) }
    {
        match decl {
            TypedDecl::Proc(procedure) => self.add_formals(&procedure.formals),
            TypedDecl::Class(class) => self.add_fields(&class.groups),
            TypedDecl::Simple(_, _) | TypedDecl::Array(_, _, _) => Ok(()),
        }
    }

    /// Adds the formals of a procedure.
    fn add_formals(&mut self, formals: &[TypedFormal]) -> Result<(), AllocError>
        ensures { OnOk result (self.new ≡ record self.old {
          formals = self.old.formals ++ blocks.all_formals formals.now;
        }) }
    {
        for formal in formals {
            self.add_formals_as(formal_type(formal), &formal.names)?;
        }
        Ok(())
    }

    /// Adds formals that are the same.
    fn add_formals_as(&mut self, is: FormalType, names: &Targets) -> Result<(), AllocError>
        ensures { OnOk result (self.new ≡ record self.old {
          formals = self.old.formals ++ blocks.formals_as is names.now.items;
        }) }
    {
        for name in names {
            self.formals.push(Formal { name: name.0, is })?;
        }
        Ok(())
    }

    /// Adds the types of the fields of a class.
    fn add_fields(&mut self, groups: &[(SimpleType, Targets)]) -> Result<(), AllocError>
        ensures { OnOk result (self.new ≡ record self.old {
          fields = self.old.fields ++ blocks.all_fields groups.now;
        }) }
    {
        for (kind, names) in groups {
            self.add_fields_of(*kind, names.len())?;
        }
        Ok(())
    }

    /// Adds so many fields of a type.
    fn add_fields_of(&mut self, kind: SimpleType, count: usize) -> Result<(), AllocError>
        ensures { OnOk result (self.new ≡ record self.old {
          fields = self.old.fields ++ replicate count kind;
        }) }
    {
        for _field in 0..count {
            self.fields.push(kind)?;
        }
        Ok(())
    }

    /// Declares the labels of items, each of which has the next target.
    fn declare_labels(
        &mut self,
        level: u16,
        first: Cursor,
        items: &[TypedItem],
    ) -> Result<(), AllocError>
        requires { All (λ name. name.0 < self.old.count) (blocks.label_names level first.position first.target items.now []) }
        ensures { OnOk result (self.new ≡ record self.old {
          names = blocks.label_names level first.position first.target items.now self.old.names;
        }) }
    {
        let mark = Entry {
            level,
            position: first.position,
        };
        for index in (0..items.len()).rev() {
            let target = further(first.target, number(index)?)?;
            self.declare_labels_of(Standing::Label(mark, target), &items[index])?;
        }
        Ok(())
    }

    /// Declares the labels of an item, which stand for the same.
    fn declare_labels_of(&mut self, standing: Standing, item: &TypedItem) -> Result<(), AllocError>
        requires { All (λ name. name.0 < self.old.count) (item_labels item.now) }
        ensures { OnOk result (self.new ≡ record self.old {
          names = blocks.all_names standing (item_labels item.now) self.old.names;
        }) }
    {
        match item {
            TypedItem::Empty(_) | TypedItem::Plain(_) => Ok(()),
            TypedItem::Labelled(labelled) => self.declare_all(standing, &labelled.labels),
        }
    }

    /// Declares names that stand for the same.
    fn declare_all(&mut self, standing: Standing, names: &Targets) -> Result<(), AllocError>
        requires { All (λ name. name.0 < self.old.count) names.now.items }
        ensures { OnOk result (self.new ≡ record self.old {
          names = blocks.all_names standing names.now.items self.old.names;
        }) }
    {
        for index in (0..names.len()).rev() {
            self.names.declare(names[index].0, standing)?;
        }
        Ok(())
    }

    /// Declares what declarations declare, of which the last one ends before this.
    fn declare_decls(
        &mut self,
        level: u16,
        end: Cursor,
        decls: &[TypedDecl],
    ) -> Result<(), AllocError>
        requires { All (λ name. name.0 < self.old.count) (blocks.names_before self.old.classes level end decls.now []) }
        ensures { OnOk result (self.new ≡ record self.old {
          names = blocks.names_before self.old.classes level end decls.now self.old.names;
        }) }
    {
        let mut next = end;
        for index in (0..decls.len()).rev() {
            next = self.declare_decl(level, next, &decls[index])?;
        }
        Ok(())
    }

    /// Declares what a declaration declares that ends before this; where it begins.
    fn declare_decl(
        &mut self,
        level: u16,
        end: Cursor,
        decl: &TypedDecl,
    ) -> Result<Cursor, AllocError>
        requires { All (λ name. name.0 < self.old.count) (blocks.decl_names self.old.classes level (blocks.before end decl.now) decl.now []) }
        ensures names { OnOk result (self.new ≡ record self.old {
          names = blocks.decl_names self.old.classes level (blocks.before end decl.now) decl.now self.old.names;
        }) }
        ensures begins { IfOk result (λ begin. begin ≡ blocks.before end decl.now) }
    {
        match decl {
            TypedDecl::Simple(kind, names) => {
                self.declare_entries(Holding::Variable(*kind), level, end, names)
            }
            TypedDecl::Array(kind, names, _) => {
                self.declare_entries(Holding::Array(*kind), level, end, names)
            }
            TypedDecl::Proc(procedure) => self.declare_procedure(level, end, procedure),
            TypedDecl::Class(class) => self.declare_class(end, class),
        }
    }

    /// Declares names that have an entry each; where they begin.
    fn declare_entries(
        &mut self,
        holding: Holding,
        level: u16,
        end: Cursor,
        names: &Targets,
    ) -> Result<Cursor, AllocError>
        requires { All (λ name. name.0 < self.old.count) names.now.items }
        ensures names { OnOk result (self.new ≡ record self.old {
          names = blocks.entry_names (blocks.standing_held holding) level (end.position - length names.now.items) names.now.items self.old.names;
        }) }
        ensures begins { IfOk result (λ begin. begin ≡ record end { position = end.position - length names.now.items }) }
    {
        let first = end.position.saturating_sub(number(names.len())?);
        for index in (0..names.len()).rev() {
            let position = further(first, number(index)?)?;
            let standing = holding.standing(Entry { level, position });
            self.names.declare(names[index].0, standing)?;
        }
        Ok(Cursor {
            position: first,
            ..end
        })
    }

    /// Declares a procedure; where it begins.
    fn declare_procedure(
        &mut self,
        level: u16,
        end: Cursor,
        procedure: &TypedProc,
    ) -> Result<Cursor, AllocError>
        requires { (blocks.named_procedure procedure.now).0 < self.old.count }
        ensures names { OnOk result (self.new ≡ record self.old {
          names = ((blocks.named_procedure procedure.now).0, blocks.procedure_standing level (blocks.before_procedure end procedure.now) procedure.now) ∷ self.old.names;
        }) }
        ensures begins { IfOk result (λ begin. begin ≡ blocks.before_procedure end procedure.now) }
    {
        let count = formal_count(procedure)?;
        let begin = Cursor {
            target: end.target.saturating_sub(1),
            formals: end.formals.saturating_sub(count),
            ..end
        };
        let standing = Standing::Procedure(Procedure {
            formals: begin.formals,
            count,
            result: procedure.result,
            level,
            target: begin.target,
        });
        self.names.declare(procedure.name.0, standing)?;
        Ok(begin)
    }

    /// Declares a record class and its fields; where it begins.
    fn declare_class(&mut self, end: Cursor, class: &TypedClass) -> Result<Cursor, AllocError>
        requires { All (λ name. name.0 < self.old.count) (blocks.class_names (class_at self.old.classes class.now.name.0) (end.fields - blocks.field_count class.now.groups.items) class.now []) }
        ensures names { OnOk result (self.new ≡ record self.old {
          names = blocks.class_names (class_at self.old.classes class.now.name.0) (end.fields - blocks.field_count class.now.groups.items) class.now self.old.names;
        }) }
        ensures begins { IfOk result (λ begin. begin ≡ blocks.before_class end class.now) }
    {
        let count = field_count(class)?;
        let fields = end.fields.saturating_sub(count);
        if let Some(number) = self.class_of(class.name.0) {
            self.declare_groups(number, count, class)?;
            let standing = Standing::Class(Class {
                class: number,
                fields,
                count,
            });
            self.names.declare(class.name.0, standing)?;
        }
        Ok(Cursor { fields, ..end })
    }

    /// Declares the fields of a class that has so many.
    fn declare_groups(
        &mut self,
        number: ClassId,
        count: u32,
        class: &TypedClass,
    ) -> Result<(), AllocError>
        requires counted { count ≡ blocks.field_count class.now.groups.items }
        requires known { All (λ name. name.0 < self.old.count) (blocks.group_names number 0 class.now.groups.items []) }
        ensures { OnOk result (self.new ≡ record self.old {
          names = blocks.group_names number 0 class.now.groups.items self.old.names;
        }) }
    {
        let mut next = count;
        for index in (0..class.groups.len()).rev() {
            let (kind, names) = &class.groups[index];
            next = self.declare_fields(number, next, *kind, names)?;
        }
        Ok(())
    }

    /// Declares fields of a class that are of one type and end before this; where they begin.
    fn declare_fields(
        &mut self,
        class: ClassId,
        end: u32,
        kind: SimpleType,
        names: &Targets,
    ) -> Result<u32, AllocError>
        requires { All (λ name. name.0 < self.old.count) names.now.items }
        ensures names { OnOk result (self.new ≡ record self.old {
          names = blocks.field_names class (end - length names.now.items) kind names.now.items self.old.names;
        }) }
        ensures begins { IfOk result (λ begin. begin ≡ end - length names.now.items) }
    {
        let first = end.saturating_sub(number(names.len())?);
        for index in (0..names.len()).rev() {
            let position = further(first, number(index)?)?;
            self.names
                .declare(names[index].0, Standing::Field(class, position, kind))?;
        }
        Ok(first)
    }
}
