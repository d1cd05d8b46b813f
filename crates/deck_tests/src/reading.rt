//! How the tests read batches and run their jobs.
ghost use Rattle.std.specs.Prelude.{◌≤◌, IfOk, length};

use deck_reader::{Batch, FeedError, Job, Reader};
use job_runner::{Desk, Ended, Shelf, run_job};
use std::alloc::{AllocError, Global};
use std::sync::Arc;

/// The batch that these bytes are.
pub(crate) fn read(alloc: Global, input: &[u8]) -> Result<Batch, FeedError>
    ensures { IfOk result (λ batch. length batch.accounts ≤ 500) }
{
    let mut reader = Reader::new(alloc)?;
    reader.feed(input)?;
    reader.finish()
}

/// The jobs of a batch, to be shared.
pub(crate) fn jobs_of(alloc: Global, batch: Batch) -> Result<Vec<Arc<Job>>, AllocError> {
    let mut jobs = Vec::new(alloc);
    for job in batch.jobs.into_vec() {
        jobs.push(Arc::new(alloc, job)?)?;
    }
    Ok(jobs)
}

/// The result of a job, where it has no flaw.
pub(crate) fn result_of(alloc: Global, job: &Arc<Job>) -> Result<Option<Ended>, AllocError> {
    if job.flaw.is_some() {
        return Ok(None);
    }
    let mut desk = Desk::new(alloc)?;
    let ended = run_job(alloc, &mut desk, &mut Shelf::new(alloc), job)?;
    Ok(Some(ended))
}
