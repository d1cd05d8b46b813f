ghost use Rattle.std.specs.Prelude.{◌≡◌, ◌≤◌, ◌<◌, ◌+◌, ◌-◌, ◌++◌, ◌∷◌, [], List, ℕ, None, Some, IfErr, IfOk, OnErr, OnOk, length, nat_lt, nat_le, ◌&&◌, map, slice_index_or};
ghost use Rattle.night_shares.specs.Begun.{begun};
ghost use Rattle.night_shares.specs.Filing.{Files, window_filings};
ghost use Rattle.night_shares.specs.Jobs.{NightJob};
ghost use Rattle.night_shares.specs.Plan.{chain_of, job_row, refused_row};
ghost use Rattle.night_shares.specs.Stops.{WriteCause};

use crate::rows::{push_chain_row, push_refused_row, window_row};
use crate::shelf::{NightFile, Part, Shelf};
use crate::stop::Stop;
use deck_reader::{Flaw, Job};
use std::alloc::{AllocError, Global};

/// The most jobs of a batch.
const MOST_JOBS: usize = 2_000;

/// Jobs of a night that stand together: at most as many, and with as many bytes, as a batch has room for.
#[derive(Drop)]
pub struct Window {
    /// Its number, from 1.
    pub number: u64,
    /// How many jobs it has.
    pub jobs: usize,
    /// How many bytes their lines have.
    pub bytes: usize,
    /// The cards of each chain's part.
    pub parts: Vec<Vec<u8>>,
    /// A line of the plan for each job.
    pub rows: Vec<u8>,
}

impl Window {
    ghost use Rattle.night_shares.specs.Held.{FilesFirst, IsWindow};

    /// A window with this number, of so many chains, with no job yet.
    pub fn new(alloc: Global, number: u64, chains: usize) -> Result<Window, AllocError>
        ensures window { (libraries : List ℕ) → IfOk result (IsWindow chains libraries number []) }
        ensures fresh { IfOk result (λ window. (window.number ≡ number) × (window.jobs ≡ 0) × (window.bytes ≡ 0) × (length window.parts.items ≡ chains)) }
    {
        Ok(Window {
            number,
            jobs: 0,
            bytes: 0,
            parts: no_parts(alloc, chains)?,
            rows: Vec::new(alloc),
        })
    }

    /// Whether a job of so many bytes fits behind those that are there, where there is room for so many.
    pub fn has_room(&self, room: usize, bytes: usize) -> bool
        requires { bytes ≤ room }
        ensures { result ≡ (nat_lt self.now.jobs 2000 && nat_le self.now.bytes (room - bytes)) }
    {
        self.jobs < MOST_JOBS && self.bytes <= room - bytes
    }

    /// Adds the next job of a chain, which is numbered from 0. A part begins with the libraries' cards.
    pub fn add(&mut self, libraries: &[u8], chain: usize, lines: &[u8]) -> Result<(), AllocError>
        requires jobs { self.old.jobs < 2000 }
        requires bytes { self.old.bytes + length lines.now ≤ 4194304 }
        requires chain { chain < length self.old.parts.items }
        ensures job { (chains number : ℕ) (jobs : List NightJob) (job : NightJob) (account : ℕ) → IsWindow chains libraries.now number jobs self.old →
            job.job.account ≡ Some account → chain ≡ chain_of chains account → job.text ≡ lines.now →
            OnOk result (IsWindow chains libraries.now number (jobs ++ job ∷ []) self.new) }
        ensures number { self.new.number ≡ self.old.number }
        ensures chains { length self.new.parts.items ≡ length self.old.parts.items }
        ensures bytes { self.new.bytes ≤ 4194304 }
    {
        extend_part(&mut self.parts[chain], libraries, lines)?;
        push_chain_row(&mut self.rows, chain as u64 + 1)?;
        self.jobs += 1;
        self.bytes += lines.len();
        Ok(())
    }

    /// Adds a job without an account, whose lines have so many bytes: it is refused for this flaw, and is in no part.
    pub fn add_refused(&mut self, flaw: Flaw, job: &Job, bytes: usize) -> Result<(), AllocError>
        requires jobs { self.old.jobs < 2000 }
        requires bytes { self.old.bytes + bytes ≤ 4194304 }
        ensures job { (chains number : ℕ) (libraries : List ℕ) (jobs : List NightJob) (refused : NightJob) → IsWindow chains libraries number jobs self.old →
            refused.job.account ≡ None → job_row chains refused.job ≡ refused_row flaw job.now → length refused.text ≡ bytes →
            OnOk result (IsWindow chains libraries number (jobs ++ refused ∷ []) self.new) }
        ensures number { self.new.number ≡ self.old.number }
        ensures chains { length self.new.parts.items ≡ length self.old.parts.items }
        ensures bytes { self.new.bytes ≤ 4194304 }
    {
        push_refused_row(&mut self.rows, flaw, job)?;
        self.jobs += 1;
        self.bytes += bytes;
        Ok(())
    }

    /// Files the window: its parts, and its lines of the plan.
    pub fn file<D: Shelf>(&self, alloc: Global, shelf: &mut D) -> Result<(), Stop>
        ensures ok { (chains number : ℕ) (libraries : List ℕ) (jobs : List NightJob) → IsWindow chains libraries number jobs self.now →
            OnOk result (Files (D.filed shelf.old) (D.filed shelf.new) (window_filings chains libraries number jobs)) }
        ensures err { (chains number : ℕ) (libraries : List ℕ) (jobs : List NightJob) → IsWindow chains libraries number jobs self.now →
            OnErr result (FilesFirst (D.filed shelf.old) (D.filed shelf.new) (window_filings chains libraries number jobs)) }
        ensures kept { OnOk result (D.faults shelf.new ≡ D.faults shelf.old) }
        ensures cause { IfErr result (λ stop. WriteCause stop (D.faults shelf.old) (D.faults shelf.new)) }
    {
        for (at, cards) in self.parts.iter().enumerate() {
            if !cards.is_empty() {
                let part = Part {
                    chain: at as u64 + 1,
                    window: self.number,
                };
                shelf.file(NightFile::Cards(part), cards.as_slice())?;
            }
        }
        let mut rows = window_row(alloc, self.number)?;
        rows.extend_from_slice(self.rows.as_slice())?;
        shelf.file(NightFile::Plan, rows.as_slice())?;
        Ok(())
    }
}

/// The parts of so many chains, with nothing in them.
fn no_parts(alloc: Global, chains: usize) -> Result<Vec<Vec<u8>>, AllocError>
    ensures many { IfOk result (λ parts. length parts.items ≡ chains) }
    ensures empty { IfOk result (λ parts. (chain : ℕ) → slice_index_or (map (λ p. p.items) parts.items) chain [] ≡ []) }
{
    let mut parts = Vec::new(alloc);
    for _ in 0..chains {
        parts.push(Vec::new(alloc))?;
    }
    Ok(parts)
}

/// Adds the lines of a job to a part, which begins with the libraries' cards.
fn extend_part(part: &mut Vec<u8>, libraries: &[u8], lines: &[u8]) -> Result<(), AllocError>
    ensures { OnOk result (part.new.items ≡ begun libraries.now part.old.items ++ lines.now) }
{
    if part.is_empty() {
        part.extend_from_slice(libraries)?;
    }
    part.extend_from_slice(lines)?;
    Ok(())
}
