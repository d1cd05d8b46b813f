/// Is told of each job that begins or ends, by the number of the job.
pub trait Gate: Sync {
    /// A worker begins the job.
    fn enter(&self, job: u32);

    /// A worker has ended the job.
    fn leave(&self, job: u32);

    /// The audit runs the job itself.
    fn audited(&self, job: u32);
}

/// A gate that does nothing.
#[derive(Clone, Copy, Debug)]
pub struct OpenGate;

impl Gate for OpenGate {
    fn enter(&self, _job: u32) {}

    fn leave(&self, _job: u32) {}

    fn audited(&self, _job: u32) {}
}
