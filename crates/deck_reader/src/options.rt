ghost use Rattle.std.specs.Prelude.{◌≡◌, Some, MatchOption};
ghost use Rattle.std.specs.Option.{option_map};
ghost use Rattle.deck_reader.specs.JobCards.{fields};
ghost use Rattle.deck_reader.specs.Options.{unset, steps_of, lines_of, is_in_range, counted_settings, option_of, once, with_field, settings_of};

use crate::bytes::split_once;
use crate::forms::{is_word, name_of, number_of, stripped};
use value_ops::Name;

/// An option of a job card.
#[derive(Clone, Copy)]
pub enum JobOption {
    /// The most steps of the job.
    Steps,
    /// The most lines of the job.
    Lines,
    /// The name of the job's library.
    Library,
}

/// What the options of a job card give. One is `None` where the card doesn't give it.
#[derive(Clone, Copy)]
pub struct Settings {
    /// The most steps that the job may take.
    pub steps: Option<u32>,
    /// The most lines that the job may print.
    pub lines: Option<u32>,
    /// The name of the job's library, in capitals.
    pub library: Option<Name>,
}

/// The settings of a card that gives no option.
pub const UNSET: Settings = Settings {
    steps: None,
    lines: None,
    library: None,
};

/// The most steps of a job whose card gives none.
const STEPS: u32 = 10_000;

/// The most steps that a card may give.
const MOST_STEPS: u32 = 10_000_000;

/// The most lines of a job whose card gives none.
const LINES: u32 = 100;

/// The most lines that a card may give.
const MOST_LINES: u32 = 500;

impl JobOption {
    /// The option that this word names, in either case of letters.
    fn named(word: &[u8]) -> Option<JobOption>
        ensures { result ≡ option_of word.now }
    {
        if is_word(word, b"STEPS") {
            Some(JobOption::Steps)
        } else if is_word(word, b"LINES") {
            Some(JobOption::Lines)
        } else if is_word(word, b"LIB") {
            Some(JobOption::Library)
        } else {
            None
        }
    }
}

impl Settings {
    /// The most steps of the job.
    pub fn steps(&self) -> u32
        ensures { result ≡ steps_of self.now }
    {
        self.steps.unwrap_or(STEPS)
    }

    /// The most lines of the job.
    pub fn lines(&self) -> u32
        ensures { result ≡ lines_of self.now }
    {
        self.lines.unwrap_or(LINES)
    }

    /// Whether the numbers are in range.
    pub fn are_in_range(&self) -> bool
        ensures { result ≡ is_in_range self.now }
    {
        (1..=MOST_STEPS).contains(&self.steps()) && (1..=MOST_LINES).contains(&self.lines())
    }

    /// These settings with what a field gives. There are none where it names no option or one that is given by now, or gives no value of it.
    /// A number past the largest `u32` is given as that.
    fn with(self, field: &[u8]) -> Option<Settings>
        ensures { (s : Settings) → self ≡ counted_settings s → result ≡ option_map counted_settings (with_field field.now s) }
    {
        let (word, value) = split_once(field, b'=')?;
        let value = stripped(value);
        match JobOption::named(stripped(word))? {
            JobOption::Steps => Some(Settings {
                steps: Some(once(self.steps, number_of(value))?),
                ..self
            }),
            JobOption::Lines => Some(Settings {
                lines: Some(once(self.lines, number_of(value))?),
                ..self
            }),
            JobOption::Library => Some(Settings {
                library: Some(once(self.library, name_of(value))?),
                ..self
            }),
        }
    }
}

/// What is given, unless there is something by now.
fn once<V: Drop>(held: Option<V>, given: Option<V>) -> Option<V>
    ensures { result ≡ once held given }
{
    match held {
        None => given,
        Some(_) => None,
    }
}

/// What the options of a job card give, where it has some.
/// A number past the largest `u32` is given as that.
pub fn settings_of(options: Option<&[u8]>) -> Option<Settings>
    ensures { MatchOption options.entry (result ≡ Some unset) (λ text.
        result ≡ option_map counted_settings (settings_of (fields text.now))) }
{
    match options {
        None => Some(UNSET),
        Some(text) => settings_in(text),
    }
}

/// What options with commas between them give.
fn settings_in(text: &[u8]) -> Option<Settings>
    ensures { result ≡ option_map counted_settings (settings_of (fields text.now)) }
{
    let mut settings = UNSET;
    for field in text.split(|b| *b == b',') {
        settings = settings.with(field)?;
    }
    Some(settings)
}
