//! The queue's rule, and the steps that keep it.
//!
//! There are seven: a pass is split; two passes are joined; the put pass is closed into a take pass, which is a join too;
//! a put succeeds; a put finds the queue full; a take succeeds; a take finds it empty. A push or pop that fails leaves
//! what its pass knows as it was, so a finding is counted in a second step, right after the one that met the queue full
//! or empty: no other place makes it.
ghost use Rattle.std.specs.Prelude.{◌≡◌};

use crate::brand::QueueBrand;
use crate::ticket::Ticket;
use crossbeam_queue::protocol::{Join, Lesson, Outcome, Protocol, Split};
use std::collections::LinkedList;
use std::marker::PhantomData;

/// What a pass of the queue knows. It is of proofs alone: no value of it is ever made.
pub struct PassView {
    /// Its parts of the right to take, of which there are sixteen.
    pub parts: u64,
    /// How many rights to put it has, of which there is one.
    pub rights: u64,
    /// With the right to put, the list of all tickets that were put.
    pub put: LinkedList<Ticket>,
    /// The tickets that it has taken.
    pub taken: LinkedList<Ticket>,
    /// How many tickets had been put, at each of its takes.
    pub heard: LinkedList<u64>,
    /// With the right to put, how many tickets the queue held right after the last put. It has held no more since then.
    pub held: u64,
    /// How many a put found in a queue that it found full since then, and 0 where none did.
    pub met: u64,
    /// How often a put found the queue full.
    pub full: u64,
    /// How often a take found it empty.
    pub empty: u64,
}

/// The rule of the queue.
pub struct QueueRule;

impl Protocol<Ticket, PassView> for QueueRule {
    ghost use Rattle.job_queue.specs.Rule.{first, Kept};

    ghost holds = { Kept };

    ghost first = { first };
}

/// The right to put and the parts of the right to take become two passes.
pub(crate) struct Apart;

impl Split<PassView> for Apart {
    ghost use Rattle.job_queue.specs.Rule.{put_side, take_side};

    ghost left = { put_side };

    ghost right = { take_side };
}

/// One part becomes a pass of its own.
pub(crate) struct PartOff;

impl Split<PassView> for PartOff {
    ghost use Rattle.job_queue.specs.Rule.{less_a_part, one_part};

    ghost left = { less_a_part };

    ghost right = { λ v. one_part };
}

/// A put has found the queue full: it held as many tickets as it has room for.
pub(crate) struct FoundFull<B> {
    of: PhantomData<B>,
}

impl<B: QueueBrand> Split<PassView> for FoundFull<B> {
    ghost use Rattle.job_queue.specs.Rule.{found_full, spent};

    ghost left = { found_full B.table.slots };

    ghost right = { λ v. spent };
}

/// A take has found the queue empty.
pub(crate) struct FoundEmpty;

impl Split<PassView> for FoundEmpty {
    ghost use Rattle.job_queue.specs.Rule.{found_empty, spent};

    ghost left = { found_empty };

    ghost right = { λ v. spent };
}

/// Two take passes become one, or the put pass is closed into a take pass.
pub(crate) struct Joined;

impl Join<PassView> for Joined {
    ghost use Rattle.job_queue.specs.Rule.{joined, spent};

    ghost both = { joined };

    ghost spent = { spent };
}

/// A put: its ticket is the last of the list, and all amounts of the list together are small. Where the queue is full it
/// holds an end of the list.
pub(crate) struct Puts;

impl Outcome<Ticket, PassView> for Puts {
    ghost use Rattle.std.specs.Prelude.{◌<◌, ◌^◌};
    ghost use Rattle.job_queue.specs.Rule.{with_put, amount_of};

    ghost then = { λ v x w. (w ≡ with_put w.held v x) × (amount_of w.put < 2 ^ 62) };
}

impl Lesson<Ticket, PassView> for Puts {
    ghost use Rattle.job_queue.specs.Rule.{HoldsEnd};

    ghost fact = { HoldsEnd };
}

/// A take: its ticket is one more that was taken. Where the queue is empty, a pass with all parts and the list of what was
/// put has taken all of it.
pub(crate) struct Takes;

impl Outcome<Ticket, PassView> for Takes {
    ghost use Rattle.std.specs.Prelude.{◌<◌, ◌^◌};
    ghost use Rattle.job_queue.specs.Rule.{with_taken, amount_of};

    ghost then = { λ v x w. (w ≡ with_taken w.heard v x) × (amount_of w.taken < 2 ^ 62) };
}

impl Lesson<Ticket, PassView> for Takes {
    ghost use Rattle.job_queue.specs.Rule.{Accounts};

    ghost fact = { Accounts };
}

/// What was taken is worth little, and there is one right to put at most.
pub(crate) struct Bounded;

impl Lesson<Ticket, PassView> for Bounded {
    ghost use Rattle.std.specs.Prelude.{◌<◌, ◌≤◌, ◌^◌};
    ghost use Rattle.job_queue.specs.Rule.{amount_of};

    ghost fact = { λ v items. (amount_of v.taken < 2 ^ 62) × (v.rights ≤ 1) };
}
