ghost use Rattle.std.specs.Prelude.{◌≡◌, ◌++◌, ◌≤◌, ◌<◌, ◌+◌, ◌-◌, ◌^◌, ℕ, List, Option, Some, IfErr, IfOk, IsErrOf, IsSomeAnd, MatchResult, OnOk, length, map};
ghost use Rattle.std.specs.Io.KnownBytes.{Appends};
ghost use Rattle.batch_io.specs.Causes.{Rose};
ghost use Rattle.night_merge.specs.declared.shelf.Part.{Part};
ghost use Rattle.night_merge.specs.Closing.{HasLeft, HasOwn, IsLower, Settles};
ghost use Rattle.night_merge.specs.Entries.{AreBelow, count_of, is_below};
ghost use Rattle.night_merge.specs.Joining.{IsWindow, first_of, joined, left_by, refused_rest, rest_by};
ghost use Rattle.night_merge.specs.Parts.{IsPart, part_at};
ghost use Rattle.night_merge.specs.Stops.{AgreeBefore, IsFair, IsFault, IsNamedIn, IsOwn, IsWhy, named};
ghost use Rattle.night_merge.specs.Supplies.{AreEnough, HasCounts, HasNext, HasRests, HasTexts, Supplies};
ghost use Rattle.night_merge.specs.Texts.{chain_lines, numbered};
ghost use Rattle.night_merge.specs.Writing.{AppendsPrefix};

use crate::closing::Chain;
use crate::output::write_all;
use crate::parts::{head_of, part_rests};
use crate::plan::Entry;
use crate::shelf::{Listings, Part};
use crate::stop::Stop;
use crate::texts::push_number;
use batch_io::Sink;
use deck_reader::{Account, Flaw, Name};
use std::alloc::{AllocError, Global};

/// A night of which a plan tells.
#[derive(Clone, Copy)]
pub struct Night<'a> {
    /// How many chains it has.
    pub chains: u32,
    /// Its accounts, in order.
    pub accounts: &'a [Account],
}

/// What a plan says of a window.
#[derive(Clone, Copy)]
pub struct Window<'a> {
    /// Its number, from 1.
    pub number: u32,
    /// The number of its first job in the night, from 1.
    pub first: u64,
    /// Its jobs.
    pub entries: &'a [Entry],
}

impl<'a> Window<'a> {
    /// What it has of a chain, which is numbered from 0 here.
    fn part(self, chain: u32) -> Part
        requires { chain < 2 ^ 32 - 1 }
        ensures { result ≡ part_at chain self.entry.number }
    {
        Part {
            chain: chain + 1,
            window: self.number,
        }
    }
}

/// Writes the sections of a window, joined from the listings of its parts; `left` has then what the window leaves its accounts.
pub fn write_window<L: Listings, K: Sink>(
    alloc: Global,
    night: Night<'_>,
    window: Window<'_>,
    left: &mut [u64],
    listings: &mut L,
    sink: &mut K,
) -> Result<(), Stop>
    requires there { length left.old ≡ length night.accounts.now }
    requires some { 0 < night.chains }
    requires room { window.first + length window.entries.now < 2 ^ 64 }
    ensures joined { (known : Part → Option (List ℕ)) (rests : ℕ → List (List ℕ)) (before after : ℕ → ℕ) → L.listings listings.old ≡ Some known
        → HasLeft left.old before → IsWindow night.entry.chains night.entry.accounts.now known window.entry.number window.entry.entries.now rests before after
        → MatchResult result (λ _. Appends (K.written sink.old) (K.written sink.new) (joined window.entry.first rests window.entry.entries.now) × HasLeft left.new after)
        (λ stop. AppendsPrefix (K.written sink.old) (K.written sink.new) (joined window.entry.first rests window.entry.entries.now) × IsFair known stop) }
    ensures why { (known seen : Part → Option (List ℕ)) (rests : ℕ → List (List ℕ)) (before after : ℕ → ℕ) (windows : ℕ) → L.listings listings.old ≡ Some known
        → (AgreeBefore seen known window.entry.number → HasLeft left.old before)
        → IsWindow night.entry.chains night.entry.accounts.now seen window.entry.number window.entry.entries.now rests before after
        → 0 < window.entry.number → window.entry.number ≤ windows → IfErr result (λ stop. IsWhy night.entry.chains windows seen known stop) }
    // A part that is named is of this window, and nothing of the window is written then.
    ensures named { (seen : Part → Option (List ℕ)) (rests : ℕ → List (List ℕ)) (before after : ℕ → ℕ)
        → IsWindow night.entry.chains night.entry.accounts.now seen window.entry.number window.entry.entries.now rests before after
        → IfErr result (λ stop. (part : Part) → named stop ≡ Some part → (part.window ≡ window.entry.number) × (K.written sink.new ≡ K.written sink.old)) }
    ensures stays { (known : Part → Option (List ℕ)) → L.listings listings.old ≡ Some known → L.listings listings.new ≡ Some known }
    ensures kept { OnOk result ((L.faults listings.new ≡ L.faults listings.old) × (K.faults sink.new ≡ K.faults sink.old)) }
    ensures read { IsErrOf result Stop.ReadFault → Rose (L.faults listings.old) (L.faults listings.new) }
    ensures write { IsErrOf result Stop.WriteFault → Rose (K.faults sink.old) (K.faults sink.new) }
{
    let texts = fetch_texts(alloc, night, window, listings)?;
    let rests = rests_by_chain(alloc, night, window, texts.as_slice(), left)?;
    write_sections(alloc, window, rests.as_slice(), sink)
}

/// The listing of what a window has of each chain, and no bytes of one of which it has no job.
fn fetch_texts<L: Listings>(
    alloc: Global,
    night: Night<'_>,
    window: Window<'_>,
    listings: &mut L,
) -> Result<Vec<Vec<u8>>, Stop>
    ensures found { (known : Part → Option (List ℕ)) → L.listings listings.old ≡ Some known
        → MatchResult result (λ texts. HasTexts known window.entry.number window.entry.entries.now texts.items) (λ stop. IsFair known stop) }
    ensures named { IfErr result (λ stop. IsNamedIn window.entry.number stop) }
    ensures all { IfOk result (λ texts. length texts.items ≡ night.entry.chains) }
    ensures stays { (known : Part → Option (List ℕ)) → L.listings listings.old ≡ Some known → L.listings listings.new ≡ Some known }
    ensures kept { OnOk result (L.faults listings.new ≡ L.faults listings.old) }
    ensures read { IsErrOf result Stop.ReadFault → Rose (L.faults listings.old) (L.faults listings.new) }
    ensures write { IsErrOf result Stop.WriteFault → ⊥ }
{
    let mut texts = Vec::new(alloc);
    for chain in 0..night.chains {
        texts.push(fetch(alloc, window, chain, listings)?)?;
    }
    Ok(texts)
}

/// The listing of what a window has of a chain, and no bytes where it has no job of it.
fn fetch<L: Listings>(
    alloc: Global,
    window: Window<'_>,
    chain: u32,
    listings: &mut L,
) -> Result<Vec<u8>, Stop>
    requires { chain < 2 ^ 32 - 1 }
    ensures found { (known : Part → Option (List ℕ)) → L.listings listings.old ≡ Some known
        → MatchResult result (λ text. 0 < count_of chain window.entry.entries.now → known (part_at chain window.entry.number) ≡ Some text.items) (λ stop. IsFair known stop) }
    ensures named { IfErr result (λ stop. IsNamedIn window.entry.number stop) }
    ensures stays { (known : Part → Option (List ℕ)) → L.listings listings.old ≡ Some known → L.listings listings.new ≡ Some known }
    ensures kept { OnOk result (L.faults listings.new ≡ L.faults listings.old) }
    ensures read { IsErrOf result Stop.ReadFault → Rose (L.faults listings.old) (L.faults listings.new) }
    ensures write { IsErrOf result Stop.WriteFault → ⊥ }
{
    if count_of(window.entries, chain) == 0 {
        return Ok(Vec::new(alloc));
    }
    let part = window.part(chain);
    match listings.listing(part)? {
        Some(text) => Ok(text),
        None => Err(Stop::Missing(part)),
    }
}

/// How many of these jobs are in a chain.
fn count_of(entries: &[Entry], chain: u32) -> usize
    ensures { result ≡ count_of chain entries.now }
{
    let mut count = 0;
    for entry in entries {
        if entry.is_in(chain) {
            count += 1;
        }
    }
    count
}

/// What the sections of each chain's part have behind their numbers, by the listings of the parts; `left` has then what they leave.
fn rests_by_chain<'a>(
    alloc: Global,
    night: Night<'_>,
    window: Window<'_>,
    texts: &'a [Vec<u8>],
    left: &mut [u64],
) -> Result<Vec<Vec<&'a [u8]>>, Stop>
    requires there { length left.old ≡ length night.accounts.now }
    requires all { length texts.now ≡ night.chains }
    requires some { 0 < night.chains }
    ensures rests { (known : Part → Option (List ℕ)) (rests : ℕ → List (List ℕ)) (before after : ℕ → ℕ) → HasTexts known window.entry.number window.entry.entries.now texts.now
        → HasLeft left.old before → IsWindow night.entry.chains night.entry.accounts.now known window.entry.number window.entry.entries.now rests before after
        → MatchResult result (λ own. HasRests rests own.items × HasLeft left.new after) (λ stop. stop ≡ Stop.NoMemory) }
    ensures why { (known seen : Part → Option (List ℕ)) (rests : ℕ → List (List ℕ)) (before after : ℕ → ℕ) (windows : ℕ) → HasTexts known window.entry.number window.entry.entries.now texts.now
        → (AgreeBefore seen known window.entry.number → HasLeft left.old before)
        → IsWindow night.entry.chains night.entry.accounts.now seen window.entry.number window.entry.entries.now rests before after
        → 0 < window.entry.number → window.entry.number ≤ windows → IfErr result (λ stop. IsWhy night.entry.chains windows seen known stop) }
    ensures named { IfErr result (λ stop. IsNamedIn window.entry.number stop) }
    ensures many { IfOk result (λ own. HasCounts window.entry.entries.now own.items) }
    ensures counted { IfOk result (λ own. length own.items ≡ night.entry.chains) }
    ensures faultless { (IsErrOf result Stop.ReadFault → ⊥) × (IsErrOf result Stop.WriteFault → ⊥) }
{
    let mut rests = Vec::new(alloc);
    for chain in 0..night.chains {
        let text = texts[chain as usize].as_slice();
        rests.push(rests_in(alloc, night, window, chain, text, left)?)?;
    }
    Ok(rests)
}

/// The same of one chain, where its part has this listing. There are none where the window has no job of it.
fn rests_in<'a>(
    alloc: Global,
    night: Night<'_>,
    window: Window<'_>,
    chain: u32,
    text: &'a [u8],
    left: &mut [u64],
) -> Result<Vec<&'a [u8]>, Stop>
    requires there { length left.old ≡ length night.accounts.now }
    requires within { chain < night.chains }
    ensures rests { (rests : List (List ℕ)) (before after : ℕ → ℕ) → length rests ≡ count_of chain window.entry.entries.now → HasOwn night.entry.chains chain left.old before
        → IsLower (length left.old) after before → (0 < count_of chain window.entry.entries.now → IsPart text.now rests (chain_lines night.entry.chains chain before after 0 night.entry.accounts.now))
        → MatchResult result (λ own. (map (λ r. r.now) own.items ≡ rests) × Settles night.entry.chains chain (count_of chain window.entry.entries.now) after left.old left.new) (λ stop. stop ≡ Stop.NoMemory) }
    ensures own { IfErr result (λ stop. IsOwn (part_at chain window.entry.number) stop) }
    ensures many { IfOk result (λ own. length own.items ≡ count_of chain window.entry.entries.now) }
    ensures faultless { (IsErrOf result Stop.ReadFault → ⊥) × (IsErrOf result Stop.WriteFault → ⊥) }
{
    let count = count_of(window.entries, chain);
    if count == 0 {
        return Ok(Vec::new(alloc));
    }
    let place = Chain {
        chains: night.chains as usize,
        chain: chain as usize,
    };
    match part_rests(alloc, text, count, place, night.accounts, left)? {
        Some(rests) => Ok(rests),
        None => Err(Stop::OtherListing(window.part(chain))),
    }
}

/// Writes the sections of a window's jobs in order, each under its number in the night.
fn write_sections<K: Sink>(
    alloc: Global,
    window: Window<'_>,
    rests: &[Vec<&[u8]>],
    sink: &mut K,
) -> Result<(), Stop>
    requires { window.first + length window.entries.now < 2 ^ 64 }
    ensures joined { (supply : ℕ → List (List ℕ)) → HasRests supply rests.now → AreBelow (length rests.now) window.entry.entries.now → AreEnough (length rests.now) supply window.entry.entries.now
        → MatchResult result (λ _. Appends (K.written sink.old) (K.written sink.new) (joined window.entry.first supply window.entry.entries.now))
        (λ stop. AppendsPrefix (K.written sink.old) (K.written sink.new) (joined window.entry.first supply window.entry.entries.now) × IsFault stop) }
    ensures kept { OnOk result (K.faults sink.new ≡ K.faults sink.old) }
    ensures read { IsErrOf result Stop.ReadFault → ⊥ }
    ensures write { IsErrOf result Stop.WriteFault → Rose (K.faults sink.old) (K.faults sink.new) }
{
    let mut taken = Vec::from_elem(alloc, 0, rests.len())?;
    for (at, entry) in window.entries.iter().enumerate() {
        let number = window.first + at as u64;
        let section = section_of(alloc, entry, number, rests, taken.as_mut_slice())?;
        write_all(sink, section.as_slice())?;
    }
    Ok(())
}

/// The section of a job under its number, from what each chain has, of which so many are taken.
fn section_of(
    alloc: Global,
    entry: &Entry,
    number: u64,
    rests: &[Vec<&[u8]>],
    taken: &mut [usize],
) -> Result<Vec<u8>, Stop>
    requires { length taken.old ≡ length rests.now }
    ensures section { (supply : ℕ → List (List ℕ)) → Supplies supply rests.now taken.old → HasNext (length rests.now) supply entry.now
        → MatchResult result (λ out. (out.items ≡ numbered number (rest_by supply entry.now)) × Supplies (left_by supply entry.now) rests.now taken.new) (λ stop. stop ≡ Stop.NoMemory) }
    ensures faultless { (IsErrOf result Stop.ReadFault → ⊥) × (IsErrOf result Stop.WriteFault → ⊥) }
{
    let mut out = head_of(alloc, number)?;
    match entry {
        Entry::Job { chain } => match next_rest(rests, taken, *chain as usize) {
            Some(rest) => out.extend_from_slice(rest)?,
            None => return Err(Stop::BadPlan),
        },
        Entry::Refused {
            flaw,
            name,
            account_name,
        } => push_refused(&mut out, *flaw, name, account_name)?,
    }
    Ok(out)
}

/// What the next section of a chain has behind its number, where it has one.
fn next_rest<'a>(rests: &[Vec<&'a [u8]>], taken: &mut [usize], chain: usize) -> Option<&'a [u8]>
    requires { length taken.old ≡ length rests.now }
    ensures { (supply : ℕ → List (List ℕ)) → Supplies supply rests.now taken.old → chain < length rests.now → 0 < length (supply chain)
        → IsSomeAnd result (λ rest. rest.now ≡ first_of (supply chain)) × Supplies (left_by supply (Entry.Job chain)) rests.now taken.new }
{
    let rest = *rests.get(chain)?.get(*taken.get(chain)?)?;
    taken[chain] += 1;
    Some(rest)
}

/// Adds what the section of a job that is refused has behind its number.
fn push_refused(
    out: &mut Vec<u8>,
    flaw: Flaw,
    name: &Name,
    account_name: &Name,
) -> Result<(), AllocError>
    ensures { OnOk result (out.new.items ≡ out.old.items ++ refused_rest flaw name.now account_name.now) }
{
    out.push(b' ')?;
    out.extend_from_slice(name.as_slice())?;
    out.push(b' ')?;
    out.extend_from_slice(account_name.as_slice())?;
    out.extend_from_slice(b"\nREFUSED ")?;
    push_number(out, u64::from(flaw.number()))?;
    out.extend_from_slice(b": ")?;
    out.extend_from_slice(flaw.text())?;
    out.push(b'\n')?;
    Ok(())
}
