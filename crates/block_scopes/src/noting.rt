ghost use Rattle.std.specs.Prelude.{◌≡◌, ◌∷◌, [], ◌++◌, ◌+◌, ◌<◌, ◌^◌, OnOk, IfOk, length};
ghost use Rattle.algolw_typing.specs.Naming.{infos, inside};
ghost use Rattle.block_scopes.specs.FrameView.{frame_view};
ghost use Rattle.name_scopes.specs.Firsts.{lent};

use crate::frame::Frame;
use algolw_tree::{NameInfo, Spelling};
use std::alloc::AllocError;
use typed_findings::name_of;
use value_ops::Place;

/// Notes the names of a scope, which are declared in a frame. The frame inside the scope.
pub fn note_names(
    found: &mut Vec<NameInfo>,
    frame: Frame,
    names: &[&(Spelling, Place)],
) -> Result<Frame, AllocError>
    ensures noted { OnOk result (found.new.items ≡ found.old.items ++ infos (frame_view frame) (lent names.now)) }
    ensures inner { IfOk result (λ inner. frame_view inner ≡ inside (frame_view frame) (lent names.now)) }
{
    let inner = frame.inside(names.len())?;
    add_names(found, frame, names)?;
    Ok(inner)
}

/// Notes the control name of a FOR at its place. The frame inside the FOR.
pub fn note_control(
    found: &mut Vec<NameInfo>,
    frame: Frame,
    name: &Spelling,
    place: Place,
) -> Result<Frame, AllocError>
    ensures noted { OnOk result (found.new.items ≡ found.old.items
        ++ infos (frame_view frame) ((name.now, place) ∷ [])) }
    ensures inner { IfOk result (λ inner.
        frame_view inner ≡ inside (frame_view frame) ((name.now, place) ∷ [])) }
{
    let inner = frame.inside(1)?;
    found.push(NameInfo {
        name: name_of(name)?,
        place,
        level: frame.level,
        slot: frame.slot,
    })?;
    Ok(inner)
}

/// Notes names that are declared in a frame.
fn add_names(
    found: &mut Vec<NameInfo>,
    frame: Frame,
    names: &[&(Spelling, Place)],
) -> Result<(), AllocError>
    requires { frame.slot + length names.now < 2 ^ 32 }
    ensures { OnOk result (found.new.items ≡ found.old.items ++ infos (frame_view frame) (lent names.now)) }
{
    for (position, declared) in names.iter().enumerate() {
        let (name, place) = *declared;
        found.push(NameInfo {
            name: name_of(name)?,
            place: *place,
            level: frame.level,
            slot: frame.slot + position as u32,
        })?;
    }
    Ok(())
}
