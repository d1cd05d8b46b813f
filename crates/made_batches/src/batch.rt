ghost use Rattle.std.specs.Prelude.{◌≡◌, ◌++◌, IfOk, OnOk, decimal};
ghost use Rattle.made_batches.specs.Decks.{filled, in_line};
ghost use Rattle.made_batches.specs.MadeBatch.{head_card, made_batch};

use crate::decks::Deck;
use crate::draws::Draws;
use itoa::Buffer;
use std::alloc::{AllocError, Global};

/// The cards that open the accounts.
const ACCOUNTS: &[u8] = b"%ACCOUNT M0 3000
%ACCOUNT M1 3000
%ACCOUNT M2 3000
%ACCOUNT M3 3000
";

/// The batch that is made from a seed, with this many jobs. Each job draws its deck, and the number in it.
pub fn make_batch(alloc: Global, seed: u32, jobs: u32) -> Result<Vec<u8>, AllocError>
    ensures { IfOk result (λ batch. batch.items ≡ made_batch seed jobs) }
{
    let mut batch = Vec::from_slice(alloc, ACCOUNTS)?;
    let mut draws = Draws::new(seed);
    for made in 0..jobs {
        let deck = Deck::by(draws.draw());
        let number = draws.draw() % 50 + 1;
        push_head(&mut batch, made + 1)?;
        push_filled(&mut batch, deck.text(), number)?;
    }
    Ok(batch)
}

/// Adds the card that begins a job.
fn push_head(out: &mut Vec<u8>, job: u32) -> Result<(), AllocError>
    ensures { OnOk result (out.new.items ≡ out.old.items ++ in_line (head_card job)) }
{
    out.extend_from_slice(b"%JOB J")?;
    push_number(out, job)?;
    out.extend_from_slice(b",M")?;
    push_number(out, job % 4)?;
    out.extend_from_slice(b",STEPS=5000,LINES=5\n")?;
    Ok(())
}

/// Adds a text with a number in place of each `#`.
fn push_filled(out: &mut Vec<u8>, text: &[u8], number: u32) -> Result<(), AllocError>
    ensures { OnOk result (out.new.items ≡ out.old.items ++ filled number text.now) }
{
    for &byte in text {
        if byte == b'#' {
            push_number(out, number)?;
        } else {
            out.push(byte)?;
        }
    }
    Ok(())
}

/// Adds the decimal text of a number.
fn push_number(out: &mut Vec<u8>, number: u32) -> Result<(), AllocError>
    ensures { OnOk result (out.new.items ≡ out.old.items ++ decimal number) }
{
    out.extend_from_slice(Buffer::new().format(number).as_bytes())
}
