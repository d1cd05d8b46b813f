ghost use Rattle.std.specs.Prelude.{◌≡◌};
ghost use Rattle.std.specs.List.{list_all};
ghost use Rattle.std.specs.Char.{is_ascii_digit};
ghost use Rattle.std.specs.Option.{option_map};
ghost use Rattle.command_words.specs.Form.{number_in, number_or};

/// The most digits of a number.
const MOST_DIGITS: usize = 10;

/// The number that the digits of a text say, where there are 1 to 10 of them and it lies in this range.
pub fn number_in(text: &str, least: u32, most: u32) -> Option<u32>
    ensures { result ≡ number_in least most text.now }
{
    if text.len() > MOST_DIGITS || !are_digits(text) {
        return None;
    }
    let number: u32 = text.parse().ok()?;
    if least <= number && number <= most {
        Some(number)
    } else {
        None
    }
}

/// The number that a text says, or the default where there is no text.
pub fn number_or(default: u32, text: Option<&str>, least: u32, most: u32) -> Option<u32>
    ensures { result ≡ number_or default least most (option_map (λ s. s.now) text.entry) }
{
    match text {
        None => Some(default),
        Some(text) => number_in(text, least, most),
    }
}

fn are_digits(text: &str) -> bool
    ensures { result ≡ list_all is_ascii_digit text.now }
{
    text.as_bytes().iter().all(|b| b.is_ascii_digit())
}
