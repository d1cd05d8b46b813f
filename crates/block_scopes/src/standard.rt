ghost use Rattle.std.specs.Prelude.{◌≡◌, ◌++◌, ◌<◌, OnOk, IsTrue, length};
ghost use Rattle.algolw_tree.specs.Standards.{spelled};
ghost use Rattle.algolw_typing.specs.Naming.{infos, outermost, standard_names};
ghost use Rattle.block_scopes.specs.Standards.{all_short};
ghost use Rattle.name_scopes.specs.Standards.{on_no_card};

use algolw_tree::{NameInfo, STANDARD, Standard};
use std::alloc::AllocError;
use value_ops::{Name, Place};

/// Notes the standard names, which stand in no procedure, and makes room for as many more.
pub fn note_standard(found: &mut Vec<NameInfo>) -> Result<(), AllocError>
    ensures { OnOk result (found.new.items ≡ found.old.items ++ infos outermost standard_names) }
{
    found.reserve(2 * STANDARD.len())?;
    add_on_no_card(found, &STANDARD)
}

/// Notes names that stand on card 0, each in the column of its number, and in no procedure.
fn add_on_no_card(found: &mut Vec<NameInfo>, names: &[(&[u8], Standard)]) -> Result<(), AllocError>
    requires few { length names.now < 255 }
    requires short { IsTrue (all_short names.now) }
    ensures { OnOk result (found.new.items ≡ found.old.items ++ infos outermost (on_no_card 1 (spelled names.now))) }
{
    for (position, (name, _)) in names.iter().enumerate() {
        let place = Place {
            card: 0,
            column: position as u8 + 1,
        };
        found.push(NameInfo {
            name: Name::from_slice(name),
            place,
            level: 0,
            slot: position as u32,
        })?;
    }
    Ok(())
}
