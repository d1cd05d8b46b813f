//! What the workers bring back.
ghost use Rattle.std.specs.Prelude.{◌≡◌, ◌+◌, ◌<◌, ◌≤◌};
ghost use Rattle.worker_pool.specs.Ends.{debt_of, debts_of, AreOverFrom};

use crate::end::WorkEnd;
use job_queue::{JobQueue, QueueBrand, TakePass};
use office::{Office, OfficeBrand};

/// What a thread of the pool brings back: its pass, of one part, which owes the amount of the ticket that it brings.
#[derive(Drop)]
pub(crate) struct Worked<B: QueueBrand> {
    pub(crate) pass: TakePass<B>,
    pub(crate) end: WorkEnd,
    pub ghost one_part: { pass.share.parts ≡ 1 },
    pub ghost owes: { pass.owed ≡ debt_of end },
}

/// What several workers and the caller bring back.
#[derive(Drop)]
pub(crate) struct Staff<B: QueueBrand, C> {
    pub(crate) pass: TakePass<B>,
    pub(crate) caller: C,
    pub(crate) brought: [WorkEnd; 16],
    pub ghost owes: { pass.owed ≡ debts_of brought },
}

/// What comes back from the pool. The pass has all parts, and owes the amounts of the tickets that were brought back.
#[derive(Drop)]
pub struct Pooled<B: OfficeBrand> {
    /// The office.
    pub office: Office<B>,
    /// The queue.
    pub queue: JobQueue<B>,
    /// The pass.
    pub pass: TakePass<B>,
    /// How the work of each worker ended: first the caller's. Where there was no worker it is over.
    pub brought: [WorkEnd; 16],
    pub ghost whole: { pass.share.parts ≡ 16 },
    pub ghost owes: { pass.owed ≡ debts_of brought },
}

impl<B: QueueBrand, C> Staff<B, C> {
    /// What the caller brings back alone.
    pub(crate) fn alone(pass: TakePass<B>, caller: C, end: WorkEnd) -> Staff<B, C>
        requires { pass.owed ≡ debt_of end }
        ensures parts { result.pass.share.parts ≡ pass.share.parts }
        ensures caller { result.caller ≡ caller }
        ensures over { AreOverFrom 1 result.brought }
    {
        Staff {
            pass,
            caller,
            brought: [
                end,
                WorkEnd::Over,
                WorkEnd::Over,
                WorkEnd::Over,
                WorkEnd::Over,
                WorkEnd::Over,
                WorkEnd::Over,
                WorkEnd::Over,
                WorkEnd::Over,
                WorkEnd::Over,
                WorkEnd::Over,
                WorkEnd::Over,
                WorkEnd::Over,
                WorkEnd::Over,
                WorkEnd::Over,
                WorkEnd::Over,
            ],
        }
    }

    /// What another worker brings back, at its place, is brought back too.
    pub(crate) fn with(self, queue: &JobQueue<B>, worked: Worked<B>, place: usize) -> Staff<B, C>
        requires place { place < 16 }
        requires over { AreOverFrom place self.brought }
        ensures parts { result.pass.share.parts ≡ self.pass.share.parts + 1 }
        ensures caller { result.caller ≡ self.caller }
        ensures over { AreOverFrom (place + 1) result.brought }
    {
        let Staff {
            mut pass,
            caller,
            mut brought,
        } = self;
        let Worked { pass: other, end } = worked;
        queue.join(&mut pass, other);
        brought[place] = end;
        Staff {
            pass,
            caller,
            brought,
        }
    }
}
