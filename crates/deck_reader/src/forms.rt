ghost use Rattle.std.specs.Prelude.{◌≡◌, ◌≤◌, ◌==◌, [], ◌∷◌, true, false, ◌||◌, length, drop, bytes_eq, MatchOption};
ghost use Rattle.std.specs.List.{list_all, prefix_len};
ghost use Rattle.std.specs.Option.{option_map};
ghost use Rattle.deck_reader.specs.Forms.{is_letter, is_digit, is_name, folded, ends_a_word, is_control, is_head, is_data, is_end, is_control_card, is_allowed, behind_blanks, stripped, number_of, name_of, balance_of, account_card, library_card, in_32_bits};
ghost use Rattle.deck_reader.specs.JobCards.{fields, job_card, counted};

use crate::bytes::split_once;
use crate::options::{Settings, settings_of};
use short_text::{Short, without_blanks};
use value_ops::Name;

/// The control word of an account card.
const ACCOUNT: &[u8] = b"%ACCOUNT";

/// The control word of the card that begins a job.
const HEAD: &[u8] = b"%JOB";

/// The control word of the card that begins a job's data.
const DATA: &[u8] = b"%DATA";

/// The control word of the card that ends a job.
const END: &[u8] = b"%EOJ";

/// The control word of the card that begins a library.
const LIBRARY: &[u8] = b"%LIBRARY";

/// The most bytes of a name.
const NAME_BYTES: usize = 8;

/// The largest opening balance.
const LARGEST_BALANCE: u32 = 999_999_999;

/// What an account card states.
#[derive(Clone, Copy)]
pub struct AccountCard {
    /// The account's name, in capitals.
    pub name: Name,
    /// The balance that it opens with.
    pub balance: u64,
}

/// What a job card states.
#[derive(Clone, Copy)]
pub struct JobCard {
    /// The job's name, in capitals.
    pub name: Name,
    /// The name of the account that pays for the job, in capitals.
    pub account: Name,
    /// What its options give.
    pub settings: Settings,
}

/// Whether the byte may stand on a card: a blank, or a character that prints.
pub fn is_allowed(byte: u8) -> bool
    ensures { result ≡ is_allowed byte }
{
    (b' '..=b'~').contains(&byte)
}

/// Whether the card begins a job.
pub fn is_head(card: &[u8]) -> bool
    ensures { result ≡ is_head card.now }
{
    behind_word(card, HEAD).is_some()
}

/// Whether the card begins a job's data.
pub fn is_data(card: &[u8]) -> bool
    ensures { result ≡ is_data card.now }
{
    behind_word(card, DATA).is_some()
}

/// Whether the card ends a job.
pub fn is_end(card: &[u8]) -> bool
    ensures { result ≡ is_end card.now }
{
    behind_word(card, END).is_some()
}

/// Whether the card is a control card of those before the first job.
pub fn is_control_card(card: &[u8]) -> bool
    ensures { result ≡ is_control_card card.now }
{
    behind_word(card, ACCOUNT).is_some()
        || is_head(card)
        || is_data(card)
        || is_end(card)
        || behind_word(card, LIBRARY).is_some()
}

/// What an account card states, where the card has the form of one.
pub fn account_card(card: &[u8]) -> Option<AccountCard>
    ensures { result ≡ account_card card.now }
{
    let (name, digits) = split_once(behind_blanks(behind_word(card, ACCOUNT)?), b' ')?;
    Some(AccountCard {
        balance: balance_of(behind_blanks(digits))?,
        name: name_of(name)?,
    })
}

/// The name of the library that a card begins, where the card has the form of one that does.
pub fn library_card(card: &[u8]) -> Option<Name>
    ensures { result ≡ library_card card.now }
{
    name_of(behind_blanks(behind_word(card, LIBRARY)?))
}

/// What a job card states, where the card has the form of one.
/// A number past the largest `u32` is given as that.
pub fn job_card(card: &[u8]) -> Option<JobCard>
    ensures { result ≡ option_map counted (job_card card.now) }
{
    let (name, rest) = next_field(behind_word(card, HEAD)?);
    let (account, settings) = next_field(rest?);
    let settings = settings_of(settings)?;
    Some(JobCard {
        name: name_of(stripped(name))?,
        account: name_of(stripped(account))?,
        settings,
    })
}

/// What stands behind a control word in column 1, which a blank or the card's end follows.
fn behind_word<'a>(card: &'a [u8], word: &[u8]) -> Option<&'a [u8]>
    requires { folded word.now ≡ word.now }
    ensures { MatchOption result (is_control word.now card.now ≡ false) (λ rest.
        (is_control word.now card.now ≡ true) × (rest.now ≡ drop (length word.now) card.now)) }
{
    let (front, rest) = card.split_at_checked(word.len())?;
    if is_word(front, word) && ends_a_word(rest) {
        Some(rest)
    } else {
        None
    }
}

/// Whether this is the word, which is in capitals, in either case of letters.
pub fn is_word(text: &[u8], word: &[u8]) -> bool
    requires { folded word.now ≡ word.now }
    ensures { result ≡ bytes_eq (folded text.now) word.now }
{
    text.eq_ignore_ascii_case(word)
}

/// Whether a word that stands before this ends there.
fn ends_a_word(rest: &[u8]) -> bool
    ensures { result ≡ ends_a_word rest.now }
{
    matches!(rest, [] | [b' ', ..])
}

/// The bytes without the blanks in front.
fn behind_blanks(bytes: &[u8]) -> &[u8]
    ensures { result.now ≡ behind_blanks bytes.now }
{
    &bytes[leading_blanks(bytes)..]
}

fn leading_blanks(bytes: &[u8]) -> usize
    ensures count { result ≡ prefix_len (λ b. b == 32) bytes.now }
    ensures within { result ≤ length bytes.now }
{
    bytes.iter().take_while(|b| **b == b' ').count()
}

/// The bytes without the blanks on either side.
pub fn stripped(bytes: &[u8]) -> &[u8]
    ensures { result.now ≡ stripped bytes.now }
{
    without_blanks(behind_blanks(bytes))
}

/// The name in capitals, where these bytes are one.
pub fn name_of(bytes: &[u8]) -> Option<Name>
    ensures { result ≡ name_of bytes.now }
{
    if !is_name(bytes) {
        return None;
    }
    let mut capitals = [0; NAME_BYTES];
    let name = &mut capitals[..bytes.len()];
    name.copy_from_slice(bytes);
    name.make_ascii_uppercase();
    Some(Short::from_slice(name))
}

/// Whether this is a letter and at most 7 more letters or digits.
fn is_name(bytes: &[u8]) -> bool
    ensures { result ≡ is_name bytes.now }
{
    match bytes {
        [] => false,
        [first, rest @ ..] => {
            first.is_ascii_alphabetic() && rest.len() < NAME_BYTES && are_alphanumeric(rest)
        }
    }
}

fn are_alphanumeric(bytes: &[u8]) -> bool
    ensures { result ≡ list_all (λ d. is_letter d || is_digit d) bytes.now }
{
    bytes.iter().all(|b| b.is_ascii_alphanumeric())
}

/// The number that digits stand for. A number past the largest `u32` is given as that.
pub fn number_of(digits: &[u8]) -> Option<u32>
    ensures { result ≡ option_map in_32_bits (number_of digits.now) }
{
    if digits.is_empty() {
        return None;
    }
    let mut value = 0u32;
    for digit in digits {
        if !digit.is_ascii_digit() {
            return None;
        }
        value = value
            .saturating_mul(10)
            .saturating_add(u32::from(*digit - b'0'));
    }
    Some(value)
}

/// The number that digits stand for, where it is at most the largest balance.
fn balance_of(digits: &[u8]) -> Option<u64>
    ensures { result ≡ balance_of digits.now }
{
    let balance = number_of(digits)?;
    if balance <= LARGEST_BALANCE {
        Some(u64::from(balance))
    } else {
        None
    }
}

/// The field before the first comma, and what stands behind the comma.
fn next_field(bytes: &[u8]) -> (&[u8], Option<&[u8]>)
    ensures { MatchOption result.1 (fields bytes.now ≡ result.0.now ∷ []) (λ rest.
        fields bytes.now ≡ result.0.now ∷ fields rest.now) }
{
    match split_once(bytes, b',') {
        None => (bytes, None),
        Some((field, rest)) => (field, Some(rest)),
    }
}
