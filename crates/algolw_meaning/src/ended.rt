ghost use Rattle.std.specs.Prelude.{◌≡◌};
ghost use Rattle.algolw_meaning.specs.Running.{job_result};

use crate::ending::Ending;
use account_book::Counts;
use deck_reader::Job;
use std::marker::Model;
use std::sync::Arc;

/// A job that has ended. Its type keeps that body, counts and ending are those that the job means.
#[derive(Drop)]
pub struct Ended {
    job: Arc<Job>,
    body: Vec<u8>,
    counts: Counts,
    ending: Ending,
}

impl Model for Ended {
    ghost use Rattle.std.specs.Prelude.{◌≡◌};
    ghost use Rattle.algolw_meaning.specs.EndedView.{EndedView};
    ghost use Rattle.algolw_meaning.specs.Running.{job_result};

    ghost Value = { EndedView };

    ghost view = { λ e. record { job = e.job.value; body = e.body.items; counts = e.counts; ending = e.ending } };

    ghost invariant = { λ e. job_result e.job.value
        ≡ record { body = e.body.items; counts = e.counts; ending = e.ending } };
}

impl Ended {
    /// A job that has ended so. It takes no memory.
    pub fn new(job: Arc<Job>, body: Vec<u8>, counts: Counts, ending: Ending) -> Ended
        requires { job_result job.value ≡ record { body = body.items; counts = counts; ending = ending } }
        ensures { result ≡ record { job = job.value; body = body.items; counts = counts; ending = ending } }
    {
        Ended {
            job,
            body,
            counts,
            ending,
        }
    }

    /// The job.
    pub fn job(&self) -> &Arc<Job>
        ensures { result.now.value ≡ self.now.job }
    {
        &self.job
    }

    /// The body of its section, in whole lines.
    pub fn body(&self) -> &[u8]
        ensures body { result.now ≡ self.now.body }
        ensures means { result.now ≡ (job_result self.now.job).body }
    {
        self.body.as_slice()
    }

    /// What it used.
    pub fn counts(&self) -> Counts
        ensures counts { result ≡ self.now.counts }
        ensures means { result ≡ (job_result self.now.job).counts }
    {
        self.counts
    }

    /// How it ended.
    pub fn ending(&self) -> Ending
        ensures ending { result ≡ self.now.ending }
        ensures means { result ≡ (job_result self.now.job).ending }
    {
        self.ending
    }
}
