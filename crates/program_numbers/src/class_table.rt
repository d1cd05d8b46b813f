ghost use Rattle.std.specs.Prelude.{◌≡◌, IfOk, map};
ghost use Rattle.algolw_typing.specs.Known.{AllHad, FieldsKnow, ClassesKnow};
ghost use Rattle.algolw_typing.specs.ProgramView.{numbered};
ghost use Rattle.typed_findings.specs.ClassView.{class_view, field_view};
ghost use Rattle.program_numbers.specs.Makes.{Makes};
ghost use Rattle.program_numbers.specs.HoldsClasses.{HoldsClasses, field_in, named_class};

use crate::numbering::Numbering;
use crate::table_builder::TableBuilder;
use std::alloc::AllocError;
use typed_findings::{Field, FoundClass};
use value_ops::{Name, SimpleType};

impl Numbering {
    /// The fields of a record class.
    fn fields(
        &self,
        table: &mut TableBuilder,
        fields: &[Field],
    ) -> Result<Vec<(Name, SimpleType)>, AllocError>
        requires { FieldsKnow self.now.classes (map field_view fields.now) }
        ensures { IfOk result (λ made. Makes self.now table.old table.new (λ ns. map (field_in ns) made.items)
            (map field_view fields.now)) }
    {
        let mut made = Vec::with_capacity(self.alloc, fields.len())?;
        for field in fields {
            let of = self.simple_type(table, field.field_type)?;
            made.push((field.name, of))?;
        }
        Ok(made)
    }

    /// The table of record classes.
    pub fn class_table(&self, classes: &[FoundClass]) -> Result<TableBuilder, AllocError>
        requires { ClassesKnow self.now.classes (map class_view classes.now) }
        ensures { IfOk result (λ table. HoldsClasses self.now table (map named_class (map class_view classes.now))) }
    {
        let mut table = TableBuilder::new(self.alloc);
        for class in classes {
            let fields = self.fields(&mut table, class.fields)?;
            if table.class_count() >= 65535 || fields.len() >= 4294967295 {
                return Err(AllocError);
            }
            table.add_class(class.name, fields)?;
        }
        Ok(table)
    }

    /// The numbers of the names of record classes.
    pub fn class_names(&self, classes: &[FoundClass]) -> Result<Vec<u32>, AllocError>
        requires { AllHad self.now.names (map (λ class. class.place) (map class_view classes.now)) }
        ensures { IfOk result (λ numbers. map (numbered self.now.names) numbers.items
            ≡ map (λ class. class.place) (map class_view classes.now)) }
    {
        let mut numbers = Vec::with_capacity(self.alloc, classes.len())?;
        for class in classes {
            numbers.push(self.names.number(class.place))?;
        }
        Ok(numbers)
    }
}
