ghost use Rattle.std.specs.Prelude.{◌≡◌, ◌++◌, ◌<◌, ◌^◌, ℕ, List, Some, MatchOption, OnOk, decimal};

use itoa::Buffer;
use std::alloc::AllocError;

/// Adds a number in decimal digits.
pub fn push_number(out: &mut Vec<u8>, number: u64) -> Result<(), AllocError>
    ensures { OnOk result (out.new.items ≡ out.old.items ++ decimal number) }
{
    let mut buffer = Buffer::new();
    out.extend_from_slice(buffer.format(number).as_bytes())?;
    Ok(())
}

/// The number that these digits state, below 2^64.
pub fn number_of(digits: &[u8]) -> Option<u64>
    ensures { (n : ℕ) → n < 2 ^ 64 → digits.now ≡ decimal n → result ≡ Some n }
{
    match std::str::from_utf8(digits) {
        Ok(text) => text.parse::<u64>().ok(),
        Err(_) => None,
    }
}

/// What stands behind this text, where the bytes begin with it.
pub fn behind<'a>(bytes: &'a [u8], text: &[u8]) -> Option<&'a [u8]>
    ensures { MatchOption result ((rest : List ℕ) → bytes.now ≡ text.now ++ rest → ⊥) (λ rest. bytes.now ≡ text.now ++ rest.now) }
{
    let (front, rest) = bytes.split_at_checked(text.len())?;
    if front == text { Some(rest) } else { None }
}
