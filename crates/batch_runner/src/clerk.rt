ghost use Rattle.std.specs.Prelude.{◌≡◌, ◌+◌, ◌<◌, ◌↔◌, ◌++◌, ◌∷◌, [], false, None, Some, IfErr, OnOk, IsTrue, is_some, length};
ghost use Rattle.account_book.specs.declared.decision.Decision.{Decision};
ghost use Rattle.batch_intake.specs.Taking.{reader_of};
ghost use Rattle.batch_runner.specs.Outcome.{Outside, outside};
ghost use Rattle.batch_runner.specs.Progress.{GoesOn, progress};

use crate::board::{BoardLine, board_line};
use account_book::Decision;
use batch_intake::{Halt, Intake};
use batch_io::{Gate, Sink, Source};
use batch_listing::{Audit, write_all_of};
use deck_reader::Job;
use job_queue::JobQueue;
use job_runner::{Brought, Desk};
use office::{Admitted, ArriveError, Office, OfficeBrand};
use std::alloc::{AllocError, Global};
use std::sync::{Arc, Mutex, Wait};
use worker_pool::{Caller, Turn};

/// What a clerk keeps of the batch.
#[derive(Drop)]
pub(crate) struct Docket {
    alloc: Global,
    pub(crate) intake: Intake,
    pub(crate) audit: Audit,
    /// Here the audit runs a job for which no worker brings a result; there is none before the first one.
    desk: Option<Desk>,
    /// So many jobs have arrived in the office.
    arrived: usize,
    /// Whether no more are to arrive.
    closed: bool,
    /// The sections of so many jobs are written.
    written: usize,
    /// What became of each of these jobs.
    pub(crate) decisions: Vec<Decision>,
    /// The job that the audit has run itself for the last section.
    audited: Option<u32>,
    /// The line of the office's board, once all sections are written; none where it has no board.
    pub(crate) line: Option<BoardLine>,
    /// Why no section more is.
    pub(crate) halt: Option<Halt>,
}

impl Docket {
    /// A docket before the first section. Each account of the audit's book must still have its opening.
    pub(crate) fn new(alloc: Global, intake: Intake, audit: Audit) -> Docket
        ensures { (result.intake ≡ intake) × (result.audit ≡ audit) × (result.written ≡ 0) × (result.decisions.items ≡ []) × (result.halt ≡ None) }
    {
        Docket {
            alloc,
            intake,
            audit,
            desk: None,
            arrived: 0,
            closed: false,
            written: 0,
            decisions: Vec::new(alloc),
            audited: None,
            line: None,
            halt: None,
        }
    }

    /// Whether a section is left that may be written.
    pub(crate) fn has_more(&self) -> bool
        ensures { IsTrue result ↔ ((self.now.halt ≡ None) × (self.now.written < length self.now.intake.jobs.items)) }
    {
        self.halt.is_none() && self.written < self.intake.jobs.len()
    }

    /// Whether nothing keeps it from being written.
    pub(crate) fn is_free(&self) -> bool
        ensures { IsTrue result ↔ (self.now.halt ≡ None) }
    {
        self.halt.is_none()
    }

    /// Whether jobs may still arrive.
    fn has_arrivals(&self) -> bool
        ensures { result ≡ false → reader_of self.now.intake ≡ None }
    {
        !self.closed || self.intake.is_open()
    }

    /// No section more is written, since memory is wanting.
    pub(crate) fn stop_without_memory(&mut self)
        requires { self.old.halt ≡ None }
        ensures goes_on { (now : Outside) → GoesOn (progress self.old now) (progress self.new now) }
        ensures halted { self.new.halt ≡ Some Halt.NoMemory }
        ensures same { (self.new.intake ≡ self.old.intake) × (self.new.written ≡ self.old.written) }
    {
        self.halt = Some(Halt::NoMemory);
    }

    /// Keeps the line of the office's board, unless it is halted, and halts it where memory is wanting for that.
    pub(crate) fn read_board<B: OfficeBrand, R: Wait>(&mut self, rt: &R, office: &mut Office<B>)
        ensures goes_on { (now : Outside) → GoesOn (progress self.old now) (progress self.new now) }
        ensures same { (self.new.intake ≡ self.old.intake) × (self.new.written ≡ self.old.written) }
        ensures halted { self.new.halt ≡ None → self.old.halt ≡ None }
        ensures line { self.new.halt ≡ None → is_some self.new.line ≡ B.boarded }
    {
        if !self.is_free() {
            return;
        }
        match board_line(rt, self.alloc, office) {
            Ok(line) => self.line = line,
            Err(AllocError) => self.stop_without_memory(),
        }
    }

    /// Tells the gate of the job that the audit has run itself, once.
    pub(crate) fn tell<G: Gate>(&mut self, gate: &G)
        ensures goes_on { (now : Outside) → GoesOn (progress self.old now) (progress self.new now) }
        ensures same { (self.new.intake ≡ self.old.intake) × (self.new.written ≡ self.old.written) × (self.new.halt ≡ self.old.halt) }
    {
        if let Some(job) = self.audited.take() {
            gate.audited(job);
        }
    }

    /// Lets the jobs that are new arrive in the office, and closes it to arrivals behind the last one.
    fn let_arrive<B: OfficeBrand, R: Wait>(
        &mut self,
        rt: &R,
        office: &Mutex<Office<B>>,
    ) -> Result<(), AllocError>
        ensures goes_on { (now : Outside) → GoesOn (progress self.old now) (progress self.new now) }
        ensures halt { self.new.halt ≡ self.old.halt }
    {
        let ended = !self.intake.is_open();
        let (from, count) = (self.arrived, self.intake.jobs.len());
        if from < count || ended {
            let mut office = office.lock(rt);
            arrive_all(rt, &mut office, self.intake.jobs.as_slice(), from)?;
            if ended {
                office.close_arrivals();
            }
            self.arrived = count;
            self.closed = ended;
        }
        Ok(())
    }

    /// Lets the jobs that are new arrive, unless it is halted, and halts it where memory is wanting for that.
    fn hand_over<B: OfficeBrand, R: Wait>(&mut self, rt: &R, office: &Mutex<Office<B>>)
        ensures goes_on { (now : Outside) → GoesOn (progress self.old now) (progress self.new now) }
    {
        if !self.is_free() {
            return;
        }
        if self.let_arrive(rt, office).is_err() {
            self.stop_without_memory();
        }
    }

    /// Stops the office, where no section more is written.
    fn stop_office<B: OfficeBrand, R: Wait>(&self, rt: &R, office: &Mutex<Office<B>>) {
        if !self.is_free() {
            office.lock(rt).stop();
        }
    }
}

/// Lets the jobs from this place on arrive. One that doesn't fit the office stops it: then the audit alone decides on it and
/// those behind it, of which none fits.
fn arrive_all<B: OfficeBrand, R: Wait>(
    rt: &R,
    office: &mut Office<B>,
    jobs: &[Arc<Job>],
    from: usize,
) -> Result<(), AllocError> {
    let Some(behind) = jobs.get(from..) else {
        return Ok(());
    };
    for job in behind {
        match office.arrive(rt, job.clone()?) {
            Ok(()) => {}
            Err(ArriveError::NoMemory) => return Err(AllocError),
            Err(ArriveError::Misfit { .. }) => office.stop(),
        }
    }
    Ok(())
}

/// Keeps what became of a job, where it is known.
fn keep(decisions: &mut Vec<Decision>, decision: Option<Decision>) -> Result<(), AllocError>
    ensures { (became : Decision) → decision ≡ Some became
        → OnOk result (decisions.new.items ≡ decisions.old.items ++ became ∷ []) }
{
    match decision {
        Some(decision) => Ok(decisions.push(decision)?),
        None => Ok(()),
    }
}

/// The number of a job that the audit has run.
fn audited(job: u32, ran: bool) -> Option<u32> {
    if ran { Some(job) } else { None }
}

/// Reads a batch, lets its jobs arrive in the office and admits them, and writes their sections in order, with the results
/// that workers bring. What it keeps is a parameter, so that it can be said what a clerk that has ended leaves in its source
/// and its sink.
#[derive(Drop)]
pub(crate) struct Clerk<'s, 'k, S: Source, K: Sink, D> {
    pub(crate) src: &'s mut S,
    pub(crate) sink: &'k mut K,
    pub(crate) docket: D,
}

impl<'s, 'k, S: Source, K: Sink, D> Clerk<'s, 'k, S, K, D> {
    /// What it has kept, once it has ended.
    pub(crate) fn into_docket(self) -> D
        ensures src { self.exit.0.now ≡ self.entry.src.now }
        ensures sink { self.exit.1.0.now ≡ self.entry.sink.now }
        ensures docket { result ≡ self.entry.docket }
    {
        let Clerk {
            src: _,
            sink: _,
            docket,
        } = self;
        docket
    }
}

impl<'s, 'k, S: Source, K: Sink> Clerk<'s, 'k, S, K, Docket> {
    /// Makes and writes the section of the next job, with what was brought for it.
    pub(crate) fn write_next(&mut self, brought: Option<Brought>)
        requires more { self.old.docket.written < length self.old.docket.intake.jobs.items }
        requires free { self.old.docket.halt ≡ None }
        ensures same_ports { (self.new.src.ghost_name ≡ self.old.src.ghost_name) × (self.new.sink.ghost_name ≡ self.old.sink.ghost_name) }
        ensures goes_on { GoesOn
            (progress self.old.docket (outside (S.left self.old.src.now) (S.faults self.old.src.now) (K.written self.old.sink.now) (K.faults self.old.sink.now)))
            (progress self.new.docket (outside (S.left self.new.src.now) (S.faults self.new.src.now) (K.written self.new.sink.now) (K.faults self.new.sink.now))) }
        ensures intake { self.new.docket.intake ≡ self.old.docket.intake }
        ensures one_more { self.new.docket.halt ≡ None → self.new.docket.written ≡ self.old.docket.written + 1 }
    {
        match self.write_section(brought) {
            Ok(()) => self.docket.written += 1,
            Err(halt) => self.docket.halt = Some(halt),
        }
    }

    /// Makes and writes a section, which isn't counted yet.
    fn write_section(&mut self, brought: Option<Brought>) -> Result<(), Halt>
        requires more { self.old.docket.written < length self.old.docket.intake.jobs.items }
        requires free { self.old.docket.halt ≡ None }
        ensures same_ports { (self.new.src.ghost_name ≡ self.old.src.ghost_name) × (self.new.sink.ghost_name ≡ self.old.sink.ghost_name) }
        ensures same { (self.new.docket.intake ≡ self.old.docket.intake) × (self.new.docket.written ≡ self.old.docket.written) × (self.new.docket.halt ≡ self.old.docket.halt) }
        ensures ok { OnOk result (GoesOn
            (progress self.old.docket (outside (S.left self.old.src.now) (S.faults self.old.src.now) (K.written self.old.sink.now) (K.faults self.old.sink.now)))
            (progress (record self.new.docket { written = self.new.docket.written + 1 }) (outside (S.left self.new.src.now) (S.faults self.new.src.now) (K.written self.new.sink.now) (K.faults self.new.sink.now)))) }
        ensures err { IfErr result (λ halt. GoesOn
            (progress self.old.docket (outside (S.left self.old.src.now) (S.faults self.old.src.now) (K.written self.old.sink.now) (K.faults self.old.sink.now)))
            (progress (record self.new.docket { halt = Some halt }) (outside (S.left self.new.src.now) (S.faults self.new.src.now) (K.written self.new.sink.now) (K.faults self.new.sink.now)))) }
    {
        let before = self.docket.audit.reruns();
        let job = &self.docket.intake.jobs[self.docket.written];
        let section = self
            .docket
            .audit
            .section(self.docket.alloc, job, brought, &mut self.docket.desk)?;
        self.docket.audited = audited(job.number, self.docket.audit.reruns() > before);
        keep(&mut self.docket.decisions, self.docket.audit.decision())?;
        write_all_of(self.sink, section.as_slice())?;
        Ok(())
    }

    /// Decides on the next job, and writes the next section where it is ready. The answer is whether either was done.
    fn serve_next<B: OfficeBrand, R: Wait>(
        &mut self,
        rt: &R,
        office: &Mutex<Office<B>>,
        queue: &JobQueue<B>,
    ) -> bool
        requires { self.old.docket.halt ≡ None }
        ensures same_ports { (self.new.src.ghost_name ≡ self.old.src.ghost_name) × (self.new.sink.ghost_name ≡ self.old.sink.ghost_name) }
        ensures goes_on { GoesOn
            (progress self.old.docket (outside (S.left self.old.src.now) (S.faults self.old.src.now) (K.written self.old.sink.now) (K.faults self.old.sink.now)))
            (progress self.new.docket (outside (S.left self.new.src.now) (S.faults self.new.src.now) (K.written self.new.sink.now) (K.faults self.new.sink.now))) }
        ensures idle { result ≡ false → self.new.docket.halt ≡ None }
    {
        if !self.docket.has_more() || self.docket.audited.is_some() {
            return false;
        }
        let (admitted, brought) = serve(rt, office, queue);
        if brought.is_none() {
            return is_decided(admitted);
        }
        self.write_next(brought);
        self.docket.stop_office(rt, office);
        true
    }

    /// Reads on, and lets the jobs that are new arrive in the office. Where that can't be, the office is stopped.
    fn take_in<B: OfficeBrand, R: Wait>(&mut self, rt: &R, office: &Mutex<Office<B>>)
        requires { self.old.docket.halt ≡ None }
        ensures same_ports { (self.new.src.ghost_name ≡ self.old.src.ghost_name) × (self.new.sink.ghost_name ≡ self.old.sink.ghost_name) }
        ensures goes_on { GoesOn
            (progress self.old.docket (outside (S.left self.old.src.now) (S.faults self.old.src.now) (K.written self.old.sink.now) (K.faults self.old.sink.now)))
            (progress self.new.docket (outside (S.left self.new.src.now) (S.faults self.new.src.now) (K.written self.new.sink.now) (K.faults self.new.sink.now))) }
    {
        self.read_on();
        self.docket.hand_over(rt, office);
        self.docket.stop_office(rt, office);
    }

    /// Reads on.
    fn read_on(&mut self)
        requires { self.old.docket.halt ≡ None }
        ensures same_ports { (self.new.src.ghost_name ≡ self.old.src.ghost_name) × (self.new.sink.ghost_name ≡ self.old.sink.ghost_name) }
        ensures goes_on { GoesOn
            (progress self.old.docket (outside (S.left self.old.src.now) (S.faults self.old.src.now) (K.written self.old.sink.now) (K.faults self.old.sink.now)))
            (progress self.new.docket (outside (S.left self.new.src.now) (S.faults self.new.src.now) (K.written self.new.sink.now) (K.faults self.new.sink.now))) }
    {
        match self.docket.intake.read_on(self.src) {
            Ok(()) => {}
            Err(halt) => self.docket.halt = Some(halt),
        }
    }
}

impl<'s, 'k, B: OfficeBrand, S: Source, K: Sink> Caller<B> for Clerk<'s, 'k, S, K, Docket> {
    ghost use Rattle.std.specs.Prelude.{◌≡◌, None};
    ghost use Rattle.std.proofs.Common.{refl, ◌∙◌};
    ghost use Rattle.batch_intake.specs.Taking.{reader_of};
    ghost use Rattle.batch_runner.specs.Outcome.{outside};
    ghost use Rattle.batch_runner.specs.Progress.{GoesOn, progress};
    ghost use Rattle.batch_runner.specs.ProgressLaws.{goes_nowhere, goes_further};

    ghost went = { λ old new. (new.src.ghost_name ≡ old.src.ghost_name) × (new.sink.ghost_name ≡ old.sink.ghost_name) × GoesOn
        (progress old.docket (outside (S.left old.src.now) (S.faults old.src.now) (K.written old.sink.now) (K.faults old.sink.now)))
        (progress new.docket (outside (S.left new.src.now) (S.faults new.src.now) (K.written new.sink.now) (K.faults new.sink.now))) };

    ghost finished = { λ c. c.docket.halt ≡ None → reader_of c.docket.intake ≡ None };

    ghost stays = { λ c. (refl, refl, goes_nowhere _) };

    ghost goes_on = { λ a b c p q. (q.0 ∙ p.0, q.1 ∙ p.1, goes_further _ _ _ p.2 q.2) };

    /// Decides on the next job, and writes the next section where it is ready. Where there is nothing to do it reads on.
    /// Nothing is left to do where all is read, no decision can be made before a worker takes or settles a ticket, and no
    /// section is ready.
    fn turn<R: Wait>(&mut self, rt: &R, office: &Mutex<Office<B>>, queue: &JobQueue<B>) -> Turn {
        if !self.docket.is_free() {
            return Turn::Done;
        }
        if self.serve_next(rt, office, queue) {
            return Turn::More;
        }
        if self.docket.has_arrivals() {
            self.take_in(rt, office);
            return Turn::More;
        }
        Turn::Done
    }
}

/// A decision on the next job, and what is ready for the next section.
fn serve<B: OfficeBrand, R: Wait>(
    rt: &R,
    office: &Mutex<Office<B>>,
    queue: &JobQueue<B>,
) -> (Admitted, Option<Brought>) {
    let mut office = office.lock(rt);
    let admitted = office.admit(rt, queue);
    let brought = office.next_section(rt);
    (admitted, brought)
}

/// Whether a job was decided.
fn is_decided(admitted: Admitted) -> bool {
    match admitted {
        Admitted::Accepted { .. } | Admitted::Refused { .. } | Admitted::Flawed { .. } => true,
        Admitted::Waits { .. } | Admitted::Full { .. } | Admitted::NoneArrived => false,
    }
}
