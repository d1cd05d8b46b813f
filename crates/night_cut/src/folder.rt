ghost use Rattle.std.specs.Prelude.{◌≡◌};

use batch_io::WriteFailed;
use night_shares::{NightFile, Part, Shelf};
use std::alloc::Global;
use std::fs::{self, File};
use std::io::{self, Write};
use std::rt::Files;

/// A folder that holds the files of a night: `plan`, `C/accounts.toml` and `C/W.cards` for the part of window W and chain C.
#[derive(Drop)]
pub struct Folder<'r, R: Files> {
    files: &'r R,
    alloc: Global,
    name: &'r str,
    plan: R::File,
    faults: u64,
}

impl<'r, R: Files> Folder<'r, R> {
    /// A folder of this name, which is made. It is an error where it is there already.
    pub fn new(files: &'r R, alloc: Global, name: &'r str) -> io::Result<Folder<'r, R>> {
        fs::create_dir(files, name)?;
        let path = format!(in alloc; "{name}/plan")?;
        let plan = File::create(files, path.as_str())?;
        Ok(Folder {
            files,
            alloc,
            name,
            plan,
            faults: 0,
        })
    }

    /// Writes a text to its file.
    fn write(&mut self, file: NightFile, text: &[u8]) -> io::Result<()>
        ensures { self.new.faults ≡ self.old.faults }
    {
        match file {
            NightFile::Plan => self.plan.write_all(text),
            NightFile::Accounts(chain) => self.write_accounts(chain, text),
            NightFile::Cards(part) => self.write_cards(part, text),
        }
    }

    /// Makes the folder of a chain, and writes its accounts file.
    fn write_accounts(&self, chain: u64, text: &[u8]) -> io::Result<()> {
        let name = self.name;
        let folder = format!(in self.alloc; "{name}/{chain}")?;
        fs::create_dir(self.files, folder.as_str())?;
        let path = format!(in self.alloc; "{name}/{chain}/accounts.toml")?;
        fs::write(self.files, path.as_str(), text)
    }

    /// Writes the cards of a part.
    fn write_cards(&self, part: Part, text: &[u8]) -> io::Result<()> {
        let name = self.name;
        let chain = part.chain;
        let window = part.window;
        let path = format!(in self.alloc; "{name}/{chain}/{window}.cards")?;
        fs::write(self.files, path.as_str(), text)
    }
}

impl<'r, R: Files> Shelf for Folder<'r, R> {
    ghost use Rattle.std.specs.Prelude.{None};

    ghost filed = { λ _. None };

    ghost faults = { λ s. s.faults };

    fn file(&mut self, file: NightFile, text: &[u8]) -> Result<(), WriteFailed> {
        if self.write(file, text).is_ok() {
            return Ok(());
        }
        self.faults = self.faults.saturating_add(1);
        Err(WriteFailed)
    }
}
