ghost use Rattle.std.specs.Prelude.{◌≡◌, ◌++◌, ◌∷◌, ◌-◌, ◌≤◌, ◌<◌, ℕ, List, Some, true, codes, decimal, IfOk, IfSome, OnOk, length, slice_index};
ghost use Rattle.night_merge.specs.Closing.{HasOwn, IsLower, Settled, StatesLeft};
ghost use Rattle.night_merge.specs.Texts.{balances_file, chain_lines, closing, closing_front, closing_line, closing_lines, closing_title, stray_line};

use crate::texts::{behind, number_of, push_number};
use deck_reader::{Account, split_once};
use std::alloc::{AllocError, Global};

/// The lines above those of the accounts.
const TITLE: &[u8] = b"\nCLOSING BALANCES\n";

/// One of a night's chains.
#[derive(Clone, Copy)]
pub struct Chain {
    /// How many chains there are.
    pub chains: usize,
    /// Its number, from 0. The account of number n is in the chain of number n mod `chains`.
    pub chain: usize,
}

/// Whether these are the closing lines of a part of a chain, where `left` has what each account was left with before it. Then it has
/// what the part leaves.
pub fn settle(
    alloc: Global,
    place: Chain,
    accounts: &[Account],
    left: &mut [u64],
    closing: &[u8],
) -> Result<bool, AllocError>
    requires there { length left.old ≡ length accounts.now }
    requires within { place.chain < place.chains }
    ensures settled { (before after : ℕ → ℕ) (stray : List ℕ) → HasOwn place.chains place.chain left.old before → IsLower (length left.old) after before
        → closing.now ≡ closing_title ++ (chain_lines place.chains place.chain before after 0 accounts.now ++ (codes "STRAY CARDS " ++ stray))
        → IfOk result (λ are. (are ≡ true) × Settled place.chains place.chain after left.old left.new) }
    // No others are: they open with what the part before has left.
    ensures opens { IfOk result (λ are. are ≡ true → (stray : List ℕ)
        × (closing.now ≡ closing_title ++ (chain_lines place.chains place.chain (slice_index left.old) (slice_index left.new) 0 accounts.now ++ (codes "STRAY CARDS " ++ stray)))) }
{
    let Some(mut rest) = behind(closing, TITLE) else {
        return Ok(false);
    };
    let mut at = place.chain;
    'lines: while at < accounts.len() {
        match left_on(alloc, accounts[at].name.as_slice(), left[at], rest)? {
            Some((balance, others)) => {
                left[at] = balance;
                rest = others;
            }
            None => return Ok(false),
        }
        at = at.saturating_add(place.chains);
    }
    Ok(behind(rest, b"STRAY CARDS ").is_some())
}

/// What the first closing line of a text leaves an account with this name and this opening, and what stands behind the line.
fn left_on<'a>(
    alloc: Global,
    name: &[u8],
    opening: u64,
    text: &'a [u8],
) -> Result<Option<(u64, &'a [u8])>, AllocError>
    ensures left { (left : ℕ) (rest : List ℕ) → left ≤ opening → text.now ≡ closing_line name.now opening left ++ rest
        → IfOk result (λ read. StatesLeft left rest read) }
    ensures line { IfOk result (λ read. IfSome read (λ r. text.now ≡ closing_line name.now opening r.0 ++ r.1.now)) }
{
    let front = front_of(alloc, name, opening)?;
    let Some(balance) = charged_on(front.as_slice(), opening, text) else {
        return Ok(None);
    };
    let mut line = Vec::new(alloc);
    push_closing_line(&mut line, name, opening, balance)?;
    match behind(text, line.as_slice()) {
        Some(rest) => Ok(Some((balance, rest))),
        None => Ok(None),
    }
}

/// The closing line of an account, up to what was charged.
fn front_of(alloc: Global, name: &[u8], opening: u64) -> Result<Vec<u8>, AllocError>
    ensures { IfOk result (λ front. front.items ≡ closing_front name.now opening) }
{
    let mut front = Vec::from_slice(alloc, name)?;
    front.extend_from_slice(b" OPENING ")?;
    push_number(&mut front, opening)?;
    front.extend_from_slice(b" CHARGES ")?;
    Ok(front)
}

/// What is left of an opening, where a line that begins so says what was charged.
fn charged_on(front: &[u8], opening: u64, text: &[u8]) -> Option<u64>
    ensures { (charges : ℕ) (rest : List ℕ) → charges ≤ opening → text.now ≡ front.now ++ (decimal charges ++ 32 ∷ rest) → result ≡ Some (opening - charges) }
{
    let (digits, _) = split_once(behind(text, front)?, b' ')?;
    let charges = number_of(digits)?;
    if charges > opening {
        return None;
    }
    Some(opening - charges)
}

/// Adds the closing line of an account.
fn push_closing_line(
    out: &mut Vec<u8>,
    name: &[u8],
    opening: u64,
    left: u64,
) -> Result<(), AllocError>
    ensures { OnOk result (out.new.items ≡ out.old.items ++ closing_line name.now opening left) }
{
    out.extend_from_slice(name)?;
    out.extend_from_slice(b" OPENING ")?;
    push_number(out, opening)?;
    out.extend_from_slice(b" CHARGES ")?;
    push_number(out, opening.saturating_sub(left))?;
    out.extend_from_slice(b" CLOSING ")?;
    push_number(out, left)?;
    out.push(b'\n')?;
    Ok(())
}

/// The closing lines of a night whose accounts are left with so much.
pub fn closing_of(
    alloc: Global,
    accounts: &[Account],
    left: &[u64],
    stray: u64,
) -> Result<Vec<u8>, AllocError>
    requires { length left.now ≡ length accounts.now }
    ensures { IfOk result (λ text. text.items ≡ closing (closing_lines (slice_index left.now) 0 accounts.now) stray) }
{
    let mut out = Vec::new(alloc);
    out.extend_from_slice(TITLE)?;
    for (at, account) in accounts.iter().enumerate() {
        push_closing_line(&mut out, account.name.as_slice(), account.opening, left[at])?;
    }
    out.extend_from_slice(b"STRAY CARDS ")?;
    push_number(&mut out, stray)?;
    out.push(b'\n')?;
    Ok(out)
}

/// What the accounts of a night are left with, as an accounts file.
pub fn balances_of(alloc: Global, accounts: &[Account], left: &[u64]) -> Result<Vec<u8>, AllocError>
    requires { length left.now ≡ length accounts.now }
    ensures { IfOk result (λ text. text.items ≡ balances_file (slice_index left.now) accounts.now) }
{
    let mut out = Vec::new(alloc);
    out.extend_from_slice(b"[accounts]\n")?;
    for (at, account) in accounts.iter().enumerate() {
        out.extend_from_slice(account.name.as_slice())?;
        out.extend_from_slice(b" = ")?;
        push_number(&mut out, left[at])?;
        out.push(b'\n')?;
    }
    Ok(out)
}
