// A night joined from its plan and the listings of its parts, taken apart.
ghost use Rattle.night_forms.specs.Laws.{BalancesFall, ClosingsAreLines, ClosingsStateBalances, IdleChainsKeep, JobsAreNamed, NightCloses, NightJoined, NumberComesOff, NumbersComeOff, PartsAreApart, PartsAreCounted, RestsBegin, WindowJoined};

use section_forms::sections_have_form;

/// A section's number is taken off as it was put on.
pub fn number_comes_off()
    ensures { NumberComesOff }
{}

/// So are the numbers of sections one after the other.
pub fn numbers_come_off()
    ensures { NumbersComeOff }
{}

/// The listing of each part of a night comes apart, whatever its jobs print and however many cards are stray in it, into the sections and closing
/// lines that the night has, but for the sections' numbers.
pub fn parts_are_apart()
    ensures { PartsAreApart }
{
    sections_have_form();
}

/// The names on the titles of a night's jobs are words of at most 8 bytes.
pub fn jobs_are_named()
    ensures { JobsAreNamed }
{}

/// A part has a section for each job that the plan gives its chain.
pub fn parts_are_counted()
    ensures { PartsAreCounted }
{}

/// What a section has behind its number begins with a blank.
pub fn rests_begin()
    ensures { RestsBegin }
{}

/// A window's sections come from its plan and its parts' sections.
pub fn window_joined()
    ensures { WindowJoined }
{}

/// All windows of a night, each joined by its plan, are its sections.
pub fn night_joined()
    ensures { NightJoined }
{}

/// The closing line of an account whose name is a text is one line.
pub fn closings_are_lines()
    ensures { ClosingsAreLines }
{}

/// It states behind its last blank what is left.
pub fn closings_state_balances()
    ensures { ClosingsStateBalances }
{}

/// No job leaves an account more than it had.
pub fn balances_fall()
    ensures { BalancesFall }
{}

/// An account of a chain that has no job in a window keeps what it has.
pub fn idle_chains_keep()
    ensures { IdleChainsKeep }
{}

/// A night closes with any table that has what each account has left.
pub fn night_closes()
    ensures { NightCloses }
{}
