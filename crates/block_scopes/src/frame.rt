ghost use Rattle.std.specs.Prelude.{◌≡◌, ◌+◌, IfOk};
ghost use Rattle.algolw_typing.specs.Naming.{inside, of_procedure, outermost, standard_names};
ghost use Rattle.block_scopes.specs.FrameView.{frame_view};

use algolw_tree::STANDARD;
use std::alloc::AllocError;

/// Where the next names are declared.
#[derive(Clone, Copy)]
pub struct Frame {
    /// In how many procedures.
    pub level: u16,
    /// How many names the scopes around that belong to the same procedure declare.
    pub slot: u32,
}

impl Frame {
    /// Inside the scope of the standard names.
    pub fn of_program() -> Frame
        ensures { frame_view result ≡ inside outermost standard_names }
    {
        Frame {
            level: 0,
            slot: STANDARD.len() as u32,
        }
    }

    /// Inside a scope of so many names.
    pub(crate) fn inside(self, count: usize) -> Result<Frame, AllocError>
        ensures level { IfOk result (λ frame. frame.level ≡ self.level) }
        ensures slot { IfOk result (λ frame. frame.slot ≡ self.slot + count) }
    {
        let Ok(count) = u32::try_from(count) else {
            return Err(AllocError);
        };
        let slot = self.slot.checked_add(count).ok_or(AllocError)?;
        Ok(Frame {
            level: self.level,
            slot,
        })
    }

    /// Inside a procedure, around its formals.
    pub fn of_procedure(self) -> Result<Frame, AllocError>
        ensures { IfOk result (λ frame. frame_view frame ≡ of_procedure (frame_view self)) }
    {
        let level = self.level.checked_add(1).ok_or(AllocError)?;
        Ok(Frame { level, slot: 0 })
    }
}
