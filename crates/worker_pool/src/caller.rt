//! What the calling thread does while the workers work.
ghost use Rattle.std.specs.Prelude.{◌≡◌};
ghost use Rattle.worker_pool.specs.declared.caller.Turn.TheVariants.{Done};

use job_queue::JobQueue;
use office::{Office, OfficeBrand};
use std::sync::{Mutex, Wait};

/// Whether a caller has more turns to take.
#[derive(Clone, Copy, Debug, PartialEq, Eq)]
pub enum Turn {
    /// It has.
    More,
    /// It hasn't: it becomes a worker.
    Done,
}

/// A caller of the pool, which takes turns until it is done.
pub trait Caller<B: OfficeBrand> {
    /// How turns may change it.
    ghost went: { Self → Self → Type 0 };

    /// What holds once it is done.
    ghost finished: { Self → Type 0 };

    /// Takes a turn.
    fn turn<R: Wait>(&mut self, rt: &R, office: &Mutex<Office<B>>, queue: &JobQueue<B>) -> Turn
        ensures went { went self.old self.new }
        ensures finished { result ≡ Done → finished self.new };

    /// No turn changes nothing.
    ghost stays: { (c : Self) → went c c };

    /// Turns follow each other.
    ghost goes_on: { (a b c : Self) → went a b → went b c → went a c };
}

/// Takes all turns.
pub(crate) fn take_turns<B: OfficeBrand, R: Wait, C: Caller<B> + Drop>(
    rt: &R,
    office: &Mutex<Office<B>>,
    queue: &JobQueue<B>,
    mut caller: C,
) -> C
    ensures went { C.went caller result }
    ensures finished { C.finished result }
{
    for _ in rt.forever() {
        match caller.turn(rt, office, queue) {
            Turn::More => {}
            Turn::Done => return caller,
        }
    }
    unreachable!()
}
