ghost use Rattle.std.specs.Prelude.{◌≡◌, ◌++◌, ◌-◌, ◌^◌, ◌≤◌, ◌<◌, ℕ, List, Some, IfOk, OnOk, IsErrOf, true, MatchResult, length};
ghost use Rattle.std.specs.Io.KnownBytes.{prepend_known};
ghost use Rattle.batch_io.specs.Causes.{Rose};
ghost use Rattle.deck_reader.specs.declared.batch.Account.{Account};
ghost use Rattle.night_merge.specs.declared.plan.Entry.{Entry};
ghost use Rattle.night_merge.specs.declared.plan.Line.{Line};
ghost use Rattle.night_merge.specs.Plan.{AreListed, AreOpened, IsSaid, accounts_text, entries_text, fed};
ghost use Rattle.night_merge.specs.Reading.{ends_accounts, ends_entries};

use crate::lines::PlanReader;
use crate::plan::{Entry, Line, line_of};
use crate::stop::Unread;
use batch_io::Source;
use deck_reader::Account;
use std::alloc::Global;

/// The most accounts of a night.
const MOST_ACCOUNTS: usize = 4_294_967_295;

/// The most jobs of a window.
const MOST_JOBS: usize = 2_000;

impl PlanReader {
    /// The next line of a plan.
    pub fn next<P: Source>(&mut self, alloc: Global, src: &mut P) -> Result<Line, Unread>
        ensures line { (line : Line) (rest : List ℕ) → IsSaid line → prepend_known self.old (P.left src.old) ≡ Some (fed line ++ rest)
            → MatchResult result (λ said. (said ≡ line) × (prepend_known self.new (P.left src.new) ≡ Some rest)) (λ unread. unread ≡ Unread.BadPlan → ⊥) }
        ensures kept { OnOk result (P.faults src.new ≡ P.faults src.old) }
        ensures read { IsErrOf result Unread.ReadFault → Rose (P.faults src.old) (P.faults src.new) }
    {
        let text = self.next_line(alloc, src)?;
        line_of(text.as_slice()).ok_or(Unread::BadPlan)
    }

    /// The next accounts of a plan, and the line behind them. There are fewer than 2^32 - 1.
    pub fn accounts<P: Source>(
        &mut self,
        alloc: Global,
        src: &mut P,
    ) -> Result<(Vec<Account>, Line), Unread>
        ensures accounts { (accounts : List Account) (line : Line) (rest : List ℕ) → AreOpened accounts → length accounts < 2 ^ 32 - 1 → IsSaid line → ends_accounts line ≡ true
            → prepend_known self.old (P.left src.old) ≡ Some (accounts_text accounts ++ (fed line ++ rest))
            → MatchResult result (λ said. (said.0.items ≡ accounts) × (said.1 ≡ line) × (prepend_known self.new (P.left src.new) ≡ Some rest)) (λ unread. unread ≡ Unread.BadPlan → ⊥) }
        ensures kept { OnOk result (P.faults src.new ≡ P.faults src.old) }
        ensures read { IsErrOf result Unread.ReadFault → Rose (P.faults src.old) (P.faults src.new) }
    {
        let mut accounts = Vec::new(alloc);
        'lines: while accounts.len() < MOST_ACCOUNTS {
            match self.next(alloc, src)? {
                Line::Opened(account) => accounts.push(account)?,
                line => return Ok((accounts, line)),
            }
        }
        Err(Unread::BadPlan)
    }

    /// The next jobs of a plan, at most 2,000, and the line behind them.
    pub fn entries<P: Source>(
        &mut self,
        alloc: Global,
        src: &mut P,
    ) -> Result<(Vec<Entry>, Line), Unread>
        ensures entries { (entries : List Entry) (line : Line) (rest : List ℕ) → AreListed entries → length entries ≤ 2000 → IsSaid line → ends_entries line ≡ true
            → prepend_known self.old (P.left src.old) ≡ Some (entries_text entries ++ (fed line ++ rest))
            → MatchResult result (λ said. (said.0.items ≡ entries) × (said.1 ≡ line) × (prepend_known self.new (P.left src.new) ≡ Some rest)) (λ unread. unread ≡ Unread.BadPlan → ⊥) }
        ensures few { IfOk result (λ said. length said.0.items ≤ 2000) }
        ensures kept { OnOk result (P.faults src.new ≡ P.faults src.old) }
        ensures read { IsErrOf result Unread.ReadFault → Rose (P.faults src.old) (P.faults src.new) }
    {
        let mut entries = Vec::new(alloc);
        'lines: while entries.len() <= MOST_JOBS {
            match self.next(alloc, src)? {
                Line::Listed(entry) => entries.push(entry)?,
                line => return Ok((entries, line)),
            }
        }
        Err(Unread::BadPlan)
    }
}
