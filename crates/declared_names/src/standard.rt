ghost use Rattle.std.specs.Prelude.{◌≡◌, ◌<◌, length};
ghost use Rattle.std.specs.Option.{option_map};
ghost use Rattle.algolw_tree.specs.Standards.{spelled};
ghost use Rattle.algolw_typing.specs.Names.{declared, in_scope};
ghost use Rattle.algolw_typing.specs.Scopes.{standard_entries};
ghost use Rattle.declared_names.specs.KnownView.{entry_of};
ghost use Rattle.declared_names.specs.Standards.{standard_path};

use crate::known::Known;
use algolw_tree::{STANDARD, Spelling, Standard};
use typing_rules::{Meaning, Reading};
use value_ops::Place;

/// What is known of a standard name, in the scope around each program.
pub(crate) fn standard_known<'a>(name: &Spelling) -> Option<Known<'a>>
    ensures { option_map (entry_of name.now) result ≡ declared standard_path name.now }
{
    known_on_no_card(&STANDARD, name)
}

/// What is known of a name among these standard ones, which stand on card 0, each in the column of its number.
fn known_on_no_card<'a>(names: &[(&[u8], Standard)], name: &Spelling) -> Option<Known<'a>>
    requires { length names.now < 255 }
    ensures { option_map (entry_of name.now) result ≡ in_scope (standard_entries 1 (spelled names.now)) name.now }
{
    for (position, (text, standard)) in names.iter().enumerate() {
        if *text == name.as_slice() {
            return Some(Known {
                place: Place {
                    card: 0,
                    column: position as u8 + 1,
                },
                is_class: false,
                reading: Reading::AsPhrases,
                means: Some(Meaning::Standard(*standard)),
            });
        }
    }
    None
}
