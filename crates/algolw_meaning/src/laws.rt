ghost use Rattle.algolw_meaning.specs.CallingDecks.{CallingDecksGive};
ghost use Rattle.algolw_meaning.specs.DeckDiagnostics.{DecksAreRead, DiagnosticsOfDecks, DiagnosticsOfJobs, JobsAreRead};
ghost use Rattle.algolw_meaning.specs.Laws.{ResultWithin, ResultsOfJobs};
ghost use Rattle.algolw_meaning.specs.ManualDecks.{ManualDecksGive};
ghost use Rattle.algolw_meaning.specs.ProgramDecks.{DecksHaveTheirParts};
ghost use Rattle.algolw_meaning.specs.RunningDecks.{DecksGive};
ghost use Rattle.algolw_meaning.specs.SectionDecks.{SectionsGive};
ghost use Rattle.algolw_meaning.specs.SettingDecks.{SettingsHaveTheirFaults};
ghost use Rattle.algolw_meaning.specs.TypingDecks.{DecksHaveTheirFaults};
ghost use Rattle.algolw_meaning.specs.WidthDecks.{WidthDecksGive};

/// A job's result counts its cards, keeps its limits, and costs at least its cards and at most its reserve.
pub fn result_within()
    ensures { ResultWithin }
{}

/// A job shows the one fault of its library, or of its deck's tokens or form; or the first twenty of the program that they
/// spell; or what this program gives, which has none.
pub fn results_of_jobs()
    ensures { ResultsOfJobs }
{}

/// A deck is the program that its tokens spell, or has one fault, of its tokens or else of its form.
pub fn decks_are_read()
    ensures { DecksAreRead }
{}

/// The diagnostics of a deck are that of its tokens or form, alone, or those of the names and types of its program.
pub fn diagnostics_of_decks()
    ensures { DiagnosticsOfDecks }
{}

/// A deck with its library has the library's one fault, or else that of the deck's tokens or form; or it is the library's
/// block with the deck's program as its one item. It is one of these, and only one.
pub fn jobs_are_read()
    ensures { JobsAreRead }
{}

/// The diagnostics of a deck with its library are that one fault, alone, or those of the names and types of this program.
pub fn diagnostics_of_jobs()
    ensures { DiagnosticsOfJobs }
{}

/// Each deck of a table has exactly the diagnostics of its names and types that stand beside it.
pub fn decks_have_their_faults()
    ensures { DecksHaveTheirFaults }
{}

/// So does each deck of a table of settings and standard variables.
pub fn settings_have_their_faults()
    ensures { SettingsHaveTheirFaults }
{}

/// Each deck of a table is a program with exactly the names, record classes and statements that stand beside it,
/// whose outermost block has statements that speak of the names and assign the types that stand there.
pub fn decks_have_their_parts()
    ensures { DecksHaveTheirParts }
{}

/// Each deck of a table of statements, values and data, run, gives exactly the ending, the steps, the lines and the dump
/// that stand beside it.
pub fn decks_give()
    ensures { DecksGive }
{}

/// So does each deck of a table of procedures, their formals, limits and dumps.
pub fn calling_decks_give()
    ensures { CallingDecksGive }
{}

/// So does each deck of a table of the widths by which values are written.
pub fn width_decks_give()
    ensures { WidthDecksGive }
{}

/// Each deck of the manual's chapter on what a program does, run, gives exactly what the manual shows.
pub fn manual_decks_give()
    ensures { ManualDecksGive }
{}

/// Each of a few jobs, with every kind of ending, has the section that stands beside it.
pub fn sections_give()
    ensures { SectionsGive }
{}
