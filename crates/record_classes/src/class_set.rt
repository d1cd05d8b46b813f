ghost use Rattle.std.specs.Prelude.{◌≡◌, true, IfOk};
ghost use Rattle.record_classes.specs.Classes.{has, is_same_set};
ghost use Rattle.record_classes.specs.Held.{Rising};

use std::alloc::AllocError;
use std::marker::Model;
use value_ops::ClassId;

/// A set of classes.
#[derive(Drop)]
pub(crate) struct ClassSet {
    /// As they were added.
    classes: Vec<ClassId>,
    /// Each once, in rising order.
    members: Vec<ClassId>,
}

impl Model for ClassSet {
    ghost use Rattle.std.specs.Prelude.{List};
    ghost use Rattle.value_ops.specs.declared.values.ClassId.{ClassId};

    ghost Value = { List ClassId };

    ghost use Rattle.record_classes.specs.Held.{Members};

    ghost view = { λ s. s.classes.items };

    ghost invariant = { λ s. Members s.classes.items s.members.items };
}

impl ClassSet {
    /// The set of these classes.
    pub(crate) fn new(classes: Vec<ClassId>) -> Result<ClassSet, AllocError>
        ensures { IfOk result (λ set. set ≡ classes.items) }
    {
        let mut members = classes.clone()?;
        members.sort_unstable();
        members.dedup();
        Ok(ClassSet { classes, members })
    }

    /// The same set, held anew.
    pub(crate) fn copied(&self) -> Result<ClassSet, AllocError>
        ensures { IfOk result (λ set. set ≡ self.now) }
    {
        Ok(ClassSet {
            classes: self.classes.clone()?,
            members: self.members.clone()?,
        })
    }

    /// Its classes, as they were added.
    pub(crate) fn classes(&self) -> &[ClassId]
        ensures { result.now ≡ self.now }
    {
        self.classes.as_slice()
    }

    /// Whether it has a class.
    pub(crate) fn has(&self, class: ClassId) -> bool
        ensures { result ≡ has self.now class }
    {
        self.members.binary_search(&class).is_ok()
    }

    /// Its classes, each once, in rising order.
    pub(crate) fn members(&self) -> Result<Vec<ClassId>, AllocError>
        ensures rising { IfOk result (λ members. Rising members.items) }
        ensures same { IfOk result (λ members. is_same_set members.items self.now ≡ true) }
    {
        self.members.clone()
    }
}
