ghost use Rattle.std.specs.Prelude.{IfOk, map};
ghost use Rattle.algolw_tree.specs.View.{class_tree, formal_tree};
ghost use Rattle.algolw_typing.specs.Known.{KnowsFormals, KnowsGroups};
ghost use Rattle.algolw_typing.specs.ProgramView as program;
ghost use Rattle.program_numbers.specs.Makes.{MakesTaken};
ghost use Rattle.program_numbers.specs.Numbered.{FormalNumbered, GroupNumbered, DeclNumbered};
ghost use Rattle.program_numbers.specs.ProgramParts.{group_in, group_tree};
ghost use Rattle.program_numbers.specs.Taken.{class_taken, formal_taken, formals_taken, group_taken, groups_taken};

use crate::numbering::Numbering;
use crate::table_builder::TableBuilder;
use algolw_tree::{ClassDecl, Formal, Names, Targets, TypeSpec, TypedClass, TypedFormal};
use std::alloc::AllocError;
use typed_findings::Untaken;
use value_ops::SimpleType;

impl Numbering {
    /// Formals that are declared together.
    fn formal(
        &self,
        table: &mut TableBuilder,
        formal: &Formal,
        found: &mut Untaken,
    ) -> Result<TypedFormal, AllocError>
        requires { FormalNumbered self.now (formal_taken (formal_tree formal.now) found.old).0 }
        ensures { IfOk result (λ made. MakesTaken self.now table.old table.new (λ ns. program.formal_view ns made)
            found.new (formal_taken (formal_tree formal.now) found.old)) }
    {
        let spec = self.perhaps_type(table, found.take_type())?;
        let names = self.targets(&formal.names)?;
        Ok(TypedFormal {
            spec,
            mode: formal.mode,
            names,
            dimensions: formal.dimensions,
        })
    }

    /// The formals of a procedure.
    pub fn formals(
        &self,
        table: &mut TableBuilder,
        formals: &[Formal],
        found: &mut Untaken,
    ) -> Result<Vec<TypedFormal>, AllocError>
        requires { KnowsFormals self.now.names self.now.classes (formals_taken (map formal_tree formals.now) found.old).0 }
        ensures { IfOk result (λ made. MakesTaken self.now table.old table.new
            (λ ns. map (program.formal_view ns) made.items)
            found.new (formals_taken (map formal_tree formals.now) found.old)) }
    {
        let mut made = Vec::new(self.alloc);
        for formal in formals {
            let next = self.formal(table, formal, found)?;
            made.push(next)?;
        }
        Ok(made)
    }

    /// Fields of a type.
    fn group(
        &self,
        table: &mut TableBuilder,
        group: &(TypeSpec, Names),
        found: &mut Untaken,
    ) -> Result<(SimpleType, Targets), AllocError>
        requires { GroupNumbered self.now (group_taken (group_tree group.now) found.old).0 }
        ensures { IfOk result (λ made. MakesTaken self.now table.old table.new (λ ns. group_in ns made)
            found.new (group_taken (group_tree group.now) found.old)) }
    {
        let of = self.simple_type(table, found.take_simple_type())?;
        let names = self.targets(&group.1)?;
        Ok((of, names))
    }

    /// The fields of a record class.
    fn groups(
        &self,
        table: &mut TableBuilder,
        groups: &[(TypeSpec, Names)],
        found: &mut Untaken,
    ) -> Result<Vec<(SimpleType, Targets)>, AllocError>
        requires { KnowsGroups self.now.names self.now.classes (groups_taken (map group_tree groups.now) found.old).0 }
        ensures { IfOk result (λ made. MakesTaken self.now table.old table.new (λ ns. map (group_in ns) made.items)
            found.new (groups_taken (map group_tree groups.now) found.old)) }
    {
        let mut made = Vec::new(self.alloc);
        for group in groups {
            let next = self.group(table, group, found)?;
            made.push(next)?;
        }
        Ok(made)
    }

    /// A record class.
    pub fn class_decl(
        &self,
        table: &mut TableBuilder,
        class: &ClassDecl,
        found: &mut Untaken,
    ) -> Result<TypedClass, AllocError>
        requires { DeclNumbered self.now (class_taken (class_tree class.now) found.old).0 }
        ensures { IfOk result (λ made. MakesTaken self.now table.old table.new (λ ns. program.class_view ns made)
            found.new (class_taken (class_tree class.now) found.old)) }
    {
        let groups = self.groups(table, &class.groups, found)?;
        let place = class.name.1;
        let name = (self.names.number(place), place);
        Ok(TypedClass { name, groups })
    }
}
