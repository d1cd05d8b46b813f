ghost use Rattle.std.specs.Prelude.{◌≡◌, ℕ, List, Option, Some, None, IfOk, MatchOption, OnOk, IsErrOf};
ghost use Rattle.batch_io.specs.Causes.{Rose};
ghost use Rattle.night_merge.specs.declared.shelf.Part.{Part};

/// A part of a night: what a window has of a chain. Both are numbered from 1.
#[derive(Clone, Copy, Debug, PartialEq, Eq)]
pub struct Part {
    pub chain: u32,
    pub window: u32,
}

/// Why a listing that may be there isn't read.
#[derive(Clone, Copy, Debug, PartialEq, Eq)]
pub enum Unfetched {
    /// Memory was wanting.
    NoMemory,
    /// A read failed, and it was counted.
    ReadFault,
}

/// Where the listings of a night's parts are.
pub trait Listings {
    // the listing of each part that has one, where that can be told
    ghost listings: { Self → Option (Part → Option (List ℕ)) };
    // how many reads have failed
    ghost faults: { Self → ℕ };

    /// The listing of a part, where there is one.
    fn listing(&mut self, part: Part) -> Result<Option<Vec<u8>>, Unfetched>
        ensures stays { (known : Part → Option (List ℕ)) → listings self.old ≡ Some known → listings self.new ≡ Some known }
        ensures found { (known : Part → Option (List ℕ)) → listings self.old ≡ Some known
            → IfOk result (λ found. MatchOption found (known part ≡ None) (λ text. known part ≡ Some text.items)) }
        ensures kept { OnOk result (faults self.new ≡ faults self.old) }
        ensures read { IsErrOf result Unfetched.ReadFault → Rose (faults self.old) (faults self.new) };
}
