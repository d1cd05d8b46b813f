ghost use Rattle.std.specs.Prelude.{◌≡◌, ◌≤◌, length, take, IfOk, IfSome};
ghost use Rattle.algolw_tree.specs.Spelled.{characters, Holds};

use std::alloc::{AllocError, Global};
use std::marker::Model;
use value_ops::Name;

/// How many characters stand in place: with their number and a tag they are as large as a pointer beside its tag.
const MOST_IN_PLACE: usize = 14;

/// How many characters a short name has at most: with their number they are as large as a pointer.
const MOST_OF_SHORT: usize = 7;

/// How a name or a string is spelled. A short one stands in place, so that what has it is small and takes nothing more.
#[derive(Drop)]
pub struct Spelling {
    text: Held,
}

/// Where the characters are.
#[derive(Drop)]
enum Held {
    /// In place: so many of these.
    InPlace([u8; MOST_IN_PLACE], u8),
    /// Apart.
    Apart(Box<Name>),
}

impl Model for Spelling {
    ghost use Rattle.std.specs.Prelude.{ℕ, List};

    ghost Value = { List ℕ };

    ghost use Rattle.algolw_tree.specs.Spelled.{spelled, Fits};

    ghost view = { spelled };

    ghost invariant = { Fits };
}

impl Spelling {
    /// This name or string.
    pub fn new(alloc: Global, text: &Name) -> Result<Spelling, AllocError>
        ensures { IfOk result (λ held. held ≡ text.now) }
    {
        let text = if text.len() <= MOST_IN_PLACE {
            in_place(text.as_slice())
        } else {
            Held::Apart(Box::new(alloc, *text)?)
        };
        Ok(Spelling { text })
    }

    /// Its characters.
    pub fn as_slice(&self) -> &[u8]
        ensures { result.now ≡ self.now }
    {
        match &self.text {
            Held::InPlace(bytes, count) => &bytes[..usize::from(*count)],
            Held::Apart(name) => name.as_slice(),
        }
    }

    /// The same once more.
    pub fn copied(&self, alloc: Global) -> Result<Spelling, AllocError>
        ensures { IfOk result (λ copy. copy ≡ self.now) }
    {
        let text = match &self.text {
            Held::InPlace(bytes, count) => Held::InPlace(*bytes, *count),
            Held::Apart(name) => Held::Apart(Box::new(alloc, **name)?),
        };
        Ok(Spelling { text })
    }
}

/// A name of so few characters that it is as small as a pointer.
#[derive(Drop)]
pub struct ShortName {
    bytes: [u8; MOST_OF_SHORT],
    /// How many of the bytes are its characters.
    count: u8,
}

impl Model for ShortName {
    ghost use Rattle.std.specs.Prelude.{ℕ, List};

    ghost Value = { List ℕ };

    ghost use Rattle.algolw_tree.specs.Spelled.{short_spelled, FitsShort};

    ghost view = { short_spelled };

    ghost invariant = { FitsShort };
}

impl ShortName {
    /// This name, where it has so few characters.
    pub fn new(name: &Spelling) -> Option<ShortName>
        ensures { IfSome result (λ short. short ≡ name.now) }
    {
        let text = name.as_slice();
        if text.len() > MOST_OF_SHORT {
            return None;
        }
        let mut bytes = [0; MOST_OF_SHORT];
        write_to(&mut bytes, text);
        let count = text.len() as u8;
        Some(ShortName { bytes, count })
    }

    /// How it is spelled.
    pub fn spelling(&self) -> Spelling
        ensures { result ≡ self.now }
    {
        let text = in_place(&self.bytes[..usize::from(self.count)]);
        Spelling { text }
    }
}

/// These characters, in place.
fn in_place(text: &[u8]) -> Held
    requires { length text.now ≤ 14 }
    ensures text { characters result ≡ text.now }
    ensures fits { Holds result }
{
    let mut bytes = [0; MOST_IN_PLACE];
    write_to(&mut bytes, text);
    Held::InPlace(bytes, text.len() as u8)
}

/// Writes characters to the front of bytes.
fn write_to(bytes: &mut [u8], text: &[u8])
    requires { length text.now ≤ length bytes.old }
    ensures { take (length text.now) bytes.new ≡ text.now }
{
    bytes[..text.len()].copy_from_slice(text);
}
