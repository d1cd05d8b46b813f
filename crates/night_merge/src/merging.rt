ghost use Rattle.std.specs.Prelude.{◌≡◌, ◌⊎◌, ◌++◌, ◌≤◌, ◌<◌, ◌+◌, ◌-◌, ◌^◌, ℕ, List, Option, Some, IfErr, IfOk, IsErrOf, MatchResult, OnOk, length, map, slice_index};
ghost use Rattle.std.specs.Io.KnownBytes.{Appends, prepend_known};
ghost use Rattle.batch_io.specs.Causes.{Rose};
ghost use Rattle.night_merge.specs.declared.plan.Entry.{Entry};
ghost use Rattle.night_merge.specs.declared.shelf.Part.{Part};
ghost use Rattle.night_merge.specs.Closing.{HasLeft};
ghost use Rattle.night_merge.specs.Nights.{AreWindows, IsNight, left_in, night_text, windows_joined};
ghost use Rattle.night_merge.specs.Plan.{Plan, first_line, lines_behind, plan_text};
ghost use Rattle.night_merge.specs.Stops.{AgreeBefore, IsFair, IsFault, IsWhy, named};
ghost use Rattle.night_merge.specs.Texts.{balances_file, closing, closing_lines};
ghost use Rattle.night_merge.specs.Writing.{AppendsPrefix};

use crate::closing::{balances_of, closing_of};
use crate::lines::PlanReader;
use crate::output::write_all;
use crate::plan::Line;
use crate::shelf::Listings;
use crate::stop::Stop;
use crate::window::{Night, Window, write_window};
use batch_io::{Sink, Source};
use deck_reader::Account;
use std::alloc::{AllocError, Global};

/// The first line of a listing.
const HEADING: &[u8] = b"ALGOL W BATCH\n";

/// Writes the listing of a night, by its plan, from the listings of its parts, and what its accounts have left as an accounts
/// file. It stops at a part whose listing isn't there or is another's.
pub fn merge_night<P: Source, L: Listings, K: Sink, B: Sink>(
    alloc: Global,
    src: &mut P,
    listings: &mut L,
    sink: &mut K,
    balances: &mut B,
) -> Result<(), Stop>
    // Where the source has the plan of a night, and the listings that are there are those of its parts, its listing is written, and what its accounts are left with.
    ensures done { (plan : Plan) (more : List ℕ) (known : Part → Option (List ℕ)) (rests : ℕ → ℕ → List (List ℕ)) (left : ℕ → ℕ → ℕ)
        → P.left src.old ≡ Some (plan_text plan ++ more) → L.listings listings.old ≡ Some known → IsNight plan known rests left
        → OnOk result (Appends (K.written sink.old) (K.written sink.new) (night_text plan rests (left_in plan left))
        × Appends (B.written balances.old) (B.written balances.new) (balances_file (left_in plan left) plan.accounts)) }

    // On any other answer it is a prefix of these: memory was wanting, a read or a write failed, or the part that is named has no listing.
    ensures cut { (plan : Plan) (more : List ℕ) (known : Part → Option (List ℕ)) (rests : ℕ → ℕ → List (List ℕ)) (left : ℕ → ℕ → ℕ)
        → P.left src.old ≡ Some (plan_text plan ++ more) → L.listings listings.old ≡ Some known → IsNight plan known rests left
        → IfErr result (λ stop. IsFair known stop × AppendsPrefix (K.written sink.old) (K.written sink.new) (night_text plan rests (left_in plan left))
        × AppendsPrefix (B.written balances.old) (B.written balances.new) (balances_file (left_in plan left) plan.accounts)) }

    // Where the source has the plan of a night, whatever listings are there: the plan isn't refused, a part that is said to have no listing has none, and one that
    // is said to have another's is of one of its chains and windows, and it or a part before it has another listing than the night's.
    ensures why { (plan : Plan) (more : List ℕ) (known seen : Part → Option (List ℕ)) (rests : ℕ → ℕ → List (List ℕ)) (left : ℕ → ℕ → ℕ)
        → P.left src.old ≡ Some (plan_text plan ++ more) → L.listings listings.old ≡ Some known → IsNight plan seen rests left
        → IfErr result (λ stop. IsWhy plan.chains (length plan.windows) seen known stop) }

    // Where a part is named, and the listings of the windows before its own are those of the night, a prefix of the night's listing is written, and no balances are.
    ensures named { (plan : Plan) (more : List ℕ) (known seen : Part → Option (List ℕ)) (rests : ℕ → ℕ → List (List ℕ)) (left : ℕ → ℕ → ℕ)
        → P.left src.old ≡ Some (plan_text plan ++ more) → L.listings listings.old ≡ Some known → IsNight plan seen rests left
        → IfErr result (λ stop. (part : Part) → named stop ≡ Some part → AgreeBefore seen known part.window
        → AppendsPrefix (K.written sink.old) (K.written sink.new) (night_text plan rests (left_in plan left)) × (B.written balances.new ≡ B.written balances.old)) }

    // Each fault has its cause, and none is passed over.
    ensures kept { OnOk result ((P.faults src.new ≡ P.faults src.old) × (L.faults listings.new ≡ L.faults listings.old)
        × (K.faults sink.new ≡ K.faults sink.old) × (B.faults balances.new ≡ B.faults balances.old)) }
    ensures read { IsErrOf result Stop.ReadFault → Rose (P.faults src.old) (P.faults src.new) ⊎ Rose (L.faults listings.old) (L.faults listings.new) }
    ensures write { IsErrOf result Stop.WriteFault → Rose (K.faults sink.old) (K.faults sink.new) ⊎ Rose (B.faults balances.old) (B.faults balances.new) }
{
    let mut plan = PlanReader::new(alloc)?;
    let Line::Night { chains } = plan.next(alloc, src)? else {
        return Err(Stop::BadPlan);
    };
    if chains == 0 {
        return Err(Stop::BadPlan);
    }
    let (accounts, line) = plan.accounts(alloc, src)?;
    let night = Night {
        chains,
        accounts: accounts.as_slice(),
    };
    let mut left = openings_of(alloc, night.accounts)?;
    write_all(sink, HEADING)?;
    let stray = write_windows(
        alloc,
        night,
        line,
        left.as_mut_slice(),
        &mut plan,
        src,
        listings,
        sink,
    )?;
    close(
        alloc,
        night.accounts,
        left.as_slice(),
        stray,
        sink,
        balances,
    )
}

/// Writes the closing lines of a night whose accounts are left with so much, and the accounts file of that.
fn close<K: Sink, B: Sink>(
    alloc: Global,
    accounts: &[Account],
    left: &[u64],
    stray: u64,
    sink: &mut K,
    balances: &mut B,
) -> Result<(), Stop>
    requires { length left.now ≡ length accounts.now }
    ensures written { OnOk result (Appends (K.written sink.old) (K.written sink.new) (closing (closing_lines (slice_index left.now) 0 accounts.now) stray)
        × Appends (B.written balances.old) (B.written balances.new) (balances_file (slice_index left.now) accounts.now)) }
    ensures cut { IfErr result (λ stop. IsFault stop × AppendsPrefix (K.written sink.old) (K.written sink.new) (closing (closing_lines (slice_index left.now) 0 accounts.now) stray)
        × AppendsPrefix (B.written balances.old) (B.written balances.new) (balances_file (slice_index left.now) accounts.now)) }
    ensures kept { OnOk result ((K.faults sink.new ≡ K.faults sink.old) × (B.faults balances.new ≡ B.faults balances.old)) }
    ensures read { IsErrOf result Stop.ReadFault → ⊥ }
    ensures write { IsErrOf result Stop.WriteFault → Rose (K.faults sink.old) (K.faults sink.new) ⊎ Rose (B.faults balances.old) (B.faults balances.new) }
{
    let closing = closing_of(alloc, accounts, left, stray)?;
    write_all(sink, closing.as_slice())?;
    let file = balances_of(alloc, accounts, left)?;
    write_all(balances, file.as_slice())?;
    Ok(())
}

/// What these accounts open with.
fn openings_of(alloc: Global, accounts: &[Account]) -> Result<Vec<u64>, AllocError>
    ensures { IfOk result (λ left. left.items ≡ map (λ account. account.opening) accounts.now) }
{
    let mut openings = Vec::new(alloc);
    for account in accounts {
        openings.push(account.opening)?;
    }
    Ok(openings)
}

/// Writes the sections of a night's windows, one after the other, where this is the first line of them; `left` has then what they leave.
/// It gives how many cards are stray, by the plan's last line.
fn write_windows<P: Source, L: Listings, K: Sink>(
    alloc: Global,
    night: Night<'_>,
    line: Line,
    left: &mut [u64],
    plan: &mut PlanReader,
    src: &mut P,
    listings: &mut L,
    sink: &mut K,
) -> Result<u64, Stop>
    requires there { length left.old ≡ length night.accounts.now }
    requires some { 0 < night.chains }
    ensures joined { (windows : List (List Entry)) (stray : ℕ) (more : List ℕ) (known : Part → Option (List ℕ)) (rests : ℕ → ℕ → List (List ℕ)) (balances : ℕ → ℕ → ℕ)
        → length windows < 2 ^ 32 - 2 → stray < 2 ^ 64 → line ≡ first_line 1 windows stray → prepend_known plan.old (P.left src.old) ≡ Some (lines_behind 1 windows stray ++ more)
        → L.listings listings.old ≡ Some known → HasLeft left.old (balances 1) → AreWindows night.entry.chains night.entry.accounts.now known rests balances 1 windows
        → MatchResult result (λ count. (count ≡ stray) × Appends (K.written sink.old) (K.written sink.new) (windows_joined 1 1 rests windows) × HasLeft left.new (balances (1 + length windows)))
        (λ stop. IsFair known stop × AppendsPrefix (K.written sink.old) (K.written sink.new) (windows_joined 1 1 rests windows)) }
    ensures why { (windows : List (List Entry)) (stray : ℕ) (more : List ℕ) (known seen : Part → Option (List ℕ)) (rests : ℕ → ℕ → List (List ℕ)) (balances : ℕ → ℕ → ℕ)
        → length windows < 2 ^ 32 - 2 → stray < 2 ^ 64 → line ≡ first_line 1 windows stray → prepend_known plan.old (P.left src.old) ≡ Some (lines_behind 1 windows stray ++ more)
        → L.listings listings.old ≡ Some known → HasLeft left.old (balances 1) → AreWindows night.entry.chains night.entry.accounts.now seen rests balances 1 windows
        → IfErr result (λ stop. IsWhy night.entry.chains (length windows) seen known stop) }
    ensures named { (windows : List (List Entry)) (stray : ℕ) (more : List ℕ) (known seen : Part → Option (List ℕ)) (rests : ℕ → ℕ → List (List ℕ)) (balances : ℕ → ℕ → ℕ)
        → length windows < 2 ^ 32 - 2 → stray < 2 ^ 64 → line ≡ first_line 1 windows stray → prepend_known plan.old (P.left src.old) ≡ Some (lines_behind 1 windows stray ++ more)
        → L.listings listings.old ≡ Some known → HasLeft left.old (balances 1) → AreWindows night.entry.chains night.entry.accounts.now seen rests balances 1 windows
        → IfErr result (λ stop. (part : Part) → named stop ≡ Some part → AgreeBefore seen known part.window
        → AppendsPrefix (K.written sink.old) (K.written sink.new) (windows_joined 1 1 rests windows)) }
    ensures kept { OnOk result ((P.faults src.new ≡ P.faults src.old) × (L.faults listings.new ≡ L.faults listings.old) × (K.faults sink.new ≡ K.faults sink.old)) }
    ensures read { IsErrOf result Stop.ReadFault → Rose (P.faults src.old) (P.faults src.new) ⊎ Rose (L.faults listings.old) (L.faults listings.new) }
    ensures write { IsErrOf result Stop.WriteFault → Rose (K.faults sink.old) (K.faults sink.new) }
{
    let mut next = line;
    let mut first = 1;
    for number in 1..u32::MAX {
        match next {
            Line::Window { number: own } => {
                if own != number {
                    return Err(Stop::BadPlan);
                }
                let (entries, behind) = plan.entries(alloc, src)?;
                let window = Window {
                    number,
                    first,
                    entries: entries.as_slice(),
                };
                write_window(alloc, night, window, left, listings, sink)?;
                first += entries.len() as u64;
                next = behind;
            }
            Line::Stray { count } => return Ok(count),
            _ => return Err(Stop::BadPlan),
        }
    }
    Err(Stop::BadPlan)
}
