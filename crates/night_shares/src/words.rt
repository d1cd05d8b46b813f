ghost use Rattle.std.specs.Prelude.{◌≡◌};
ghost use Rattle.deck_reader.specs.Cards.{cleaned};
ghost use Rattle.deck_reader.specs.Forms.{is_control};
ghost use Rattle.night_shares.specs.Lines.{begins_job, ends_job};
ghost use Rattle.night_shares.specs.WordEnds.{IsControlWord, ends_word};

/// The control word of the card that begins a job.
const HEAD: &[u8] = b"%JOB";

/// The control word of the card that ends a job.
const END: &[u8] = b"%EOJ";

/// Whether the card of this line begins a job.
pub fn begins_job(line: &[u8]) -> bool
    ensures { result ≡ begins_job line.now }
{
    has_word(line, HEAD)
}

/// Whether the card of this line ends a job.
pub fn ends_job(line: &[u8]) -> bool
    ensures { result ≡ ends_job line.now }
{
    has_word(line, END)
}

/// Whether this control word stands in column 1 of the line's card, and ends there.
fn has_word(line: &[u8], word: &[u8]) -> bool
    requires { IsControlWord word.now }
    ensures { result ≡ is_control word.now (cleaned line.now) }
{
    let Some((front, rest)) = line.split_at_checked(word.len()) else {
        return false;
    };
    front.eq_ignore_ascii_case(word) && ends_word(rest)
}

/// Whether a word that stands before this ends there. A carriage return at the line's end isn't of its card, and a tab is a blank.
fn ends_word(rest: &[u8]) -> bool
    ensures { result ≡ ends_word rest.now }
{
    matches!(rest, [] | [b' ', ..] | [b'\t', ..] | [b'\r'])
}
