ghost use Rattle.std.specs.Prelude.{◌≡◌, OnOk, map};
ghost use Rattle.algolw_typing.specs.Faults.{in_order};
ghost use Rattle.algolw_typing.specs.Programs.{by_place};
ghost use Rattle.typed_findings.specs.ClassView.{class_view};

use algolw_tree::NameInfo;
use std::alloc::AllocError;
use typed_findings::FoundClass;
use value_ops::Diagnostic;

/// Puts names in order of place.
pub fn sort_names(names: &mut Vec<NameInfo>) -> Result<(), AllocError>
    ensures { OnOk result (names.new.items ≡ by_place (λ info. info.place) names.old.items) }
{
    names.sort_by_key(|info| info.place)?;
    Ok(())
}

/// Puts record classes in order of place.
pub fn sort_classes(classes: &mut Vec<FoundClass>) -> Result<(), AllocError>
    ensures { OnOk result (map class_view classes.new.items
        ≡ by_place (λ class. class.place) (map class_view classes.old.items)) }
{
    classes.sort_by_key(|class| class.place)?;
    Ok(())
}

/// Puts diagnostics in order of place and, at one place, of number.
pub fn sort_faults(faults: &mut Vec<Diagnostic>) -> Result<(), AllocError>
    ensures { OnOk result (faults.new.items ≡ in_order faults.old.items) }
{
    faults.sort()?;
    Ok(())
}
