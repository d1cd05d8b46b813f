ghost use Rattle.algolw_grammar.specs.Laws.{OneProgram, ProgramsBegin, FrontsBegin, OneAnswer, ParsedIsAnswer};

/// Tokens spell at most one program.
pub fn one_program()
    ensures { OneProgram }
{}

/// What spells a program begins one, and so does each front of what begins one.
pub fn fronts_begin()
    ensures programs { ProgramsBegin }
    ensures fronts { FrontsBegin }
{}

/// Of tokens there is at most one thing to say: a program, the token that doesn't go on, or the one that begins nesting 101; and
/// where the last token is the end of the deck, reading them says it.
pub fn answers()
    ensures one { OneAnswer }
    ensures parsed { ParsedIsAnswer }
{}
