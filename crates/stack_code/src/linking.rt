ghost use Rattle.std.specs.Prelude.{◌≡◌, map};
ghost use Rattle.stack_code.specs.Linking as linking;

use crate::calls::ComparedCall;
use crate::code::Code;
use crate::heads::{Reading, TextHead};
use crate::instructions::{Coded, Instr, Source};
use chunked_vec::ChunkedVec;

/// The instruction at a target.
fn instruction_at(targets: &[u32], target: u32) -> u32
    ensures { result ≡ linking.instruction_at targets.now target }
{
    match targets.get(target as usize) {
        Some(instruction) => *instruction,
        None => target,
    }
}

impl Source {
    /// With a procedure's head for its target.
    fn linked(self, targets: &[u32]) -> Source
        ensures { result ≡ linking.linked_source targets.now self }
    {
        match self {
            Source::Head { links, head } => Source::Head {
                links,
                head: instruction_at(targets, head),
            },
            Source::Entry { links, position } => Source::Entry { links, position },
        }
    }
}

impl Reading {
    /// With a procedure's head for its target.
    fn linked(self, targets: &[u32]) -> Reading
        ensures { result ≡ linking.linked_reading targets.now self }
    {
        match self {
            Reading::Name(source) => Reading::Name(source.linked(targets)),
            Reading::Subarray { array, stars } => Reading::Subarray {
                array: array.linked(targets),
                stars,
            },
            reading => reading,
        }
    }
}

impl Instr {
    /// With a procedure's head or a label's item for its target.
    fn linked(self, targets: &[u32]) -> Instr
        ensures { result ≡ linking.linked_instr targets.now self }
    {
        match self {
            Instr::Goto {
                links,
                position,
                target,
            } => Instr::Goto {
                links,
                position,
                target: instruction_at(targets, target),
            },
            Instr::Call { links, site, head } => Instr::Call {
                links,
                site,
                head: instruction_at(targets, head),
            },
            Instr::HandOn(source) => Instr::HandOn(source.linked(targets)),
            instr => instr,
        }
    }
}

/// Puts an instruction for each target of instructions.
fn link_instructions(instructions: &mut ChunkedVec<Coded>, targets: &[u32])
    ensures { instructions.new ≡ map (linking.linked_coded targets.now) instructions.old }
{
    for number in 0..instructions.len() {
        let coded = &mut instructions[number];
        coded.does = coded.does.linked(targets);
    }
}

/// Puts an instruction for each target of the heads of texts.
fn link_texts(texts: &mut ChunkedVec<TextHead>, targets: &[u32])
    ensures { texts.new ≡ map (linking.linked_text targets.now) texts.old }
{
    for number in 0..texts.len() {
        let text = &mut texts[number];
        text.reading = text.reading.linked(targets);
    }
}

/// Puts an instruction for each target of calls that compare.
fn link_calls(calls: &mut ChunkedVec<ComparedCall>, targets: &[u32])
    ensures { calls.new ≡ map (linking.linked_call targets.now) calls.old }
{
    for number in 0..calls.len() {
        let call = &mut calls[number];
        call.set_source(call.source().linked(targets));
    }
}

impl Code {
    #[tactic(auto, using(crate::proofs::Linked::fits_linked))]
    /// Puts an instruction for each target: in jumps to labels, in calls, and in what stands for a procedure.
    pub fn link(&mut self, targets: &[u32])
        ensures { self.new ≡ linking.linked targets.now self.old }
    {
        link_instructions(&mut self.instructions, targets);
        link_texts(&mut self.texts, targets);
        link_calls(&mut self.calls, targets);
    }
}
