ghost use Rattle.std.specs.Prelude.{[], ◌∷◌, List, Option, ℕ, OnErr, OnOk};
ghost use Rattle.batch_io.specs.Causes.{HasCause};
ghost use Rattle.night_shares.specs.Filing.{Files, Filing};

use batch_io::WriteFailed;

/// A part of a night: what a window has of a chain. Both are numbered from 1.
#[derive(Clone, Copy, Debug, PartialEq, Eq)]
pub struct Part {
    /// The number of the chain, from 1.
    pub chain: u64,
    /// The number of the window, from 1.
    pub window: u64,
}

/// A file of a night that is cut.
#[derive(Clone, Copy, Debug, PartialEq, Eq)]
pub enum NightFile {
    /// The plan, which comes in several texts, one behind the other.
    Plan,
    /// The accounts file of the chain with this number, from 1.
    Accounts(u64),
    /// The cards of a part.
    Cards(Part),
}

/// Where the files of a night are kept. Each is filed once, but for the plan, whose texts come in order.
pub trait Shelf {
    // what was filed, in order, where the shelf can tell it
    ghost filed: { Self → Option (List Filing) };
    // how many faults the shelf has met: the count never falls, and stops at 2^64 - 1
    ghost faults: { Self → ℕ };

    /// Files a text: all of a file, or the plan's next lines. Where that fails, the failure is counted, and what was filed before
    /// stays; some of the text may stand in its file.
    fn file(&mut self, file: NightFile, text: &[u8]) -> Result<(), WriteFailed>
        ensures ok { OnOk result (Files (filed self.old) (filed self.new) (record { file = file; text = text.now } ∷ [])) }
        ensures err { OnErr result (Files (filed self.old) (filed self.new) []) }
        ensures cause { HasCause (faults self.old) (faults self.new) result };
}
