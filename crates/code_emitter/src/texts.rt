ghost use Rattle.std.specs.Prelude.{◌≡◌, ◌<◌, ◌≤◌, IfOk, OnOk, drop, length};
ghost use Rattle.stack_code.specs.CodeView.{KindFits, KindsFit, TextFits};
ghost use Rattle.code_emitter.specs.Appending.{Compares, text_closed, text_opened, with_aside, with_thunk};
ghost use Rattle.code_emitter.specs.Readings as readings;

use crate::emitter::Emitter;
use stack_code::{ComparedCall, Instr, Purpose, Reading, Source, TextHead};
use std::alloc::AllocError;
use symbol_table::Here;
use value_ops::SimpleType;

/// A text that is being coded.
#[derive(Clone, Copy)]
pub struct OpenText {
    /// The instruction that is its head.
    pub head: u32,
    /// The number of its head among the heads of texts.
    pub number: u32,
}

/// How a name alone is read.
pub fn reading_of_name(source: Option<Source>) -> Reading
    ensures { result ≡ readings.of_name source }
{
    match source {
        Some(source) => Reading::Name(source),
        None => Reading::Nothing,
    }
}

/// How a subarray is read.
pub fn reading_of_subarray(source: Option<Source>, stars: u32) -> Reading
    ensures { result ≡ readings.of_subarray source stars }
{
    match source {
        Some(array) => Reading::Subarray { array, stars },
        None => Reading::Nothing,
    }
}

impl Emitter {
    /// The head of a text.
    pub fn open_text(&mut self, here: Here, head: TextHead) -> Result<OpenText, AllocError>
        requires { TextFits self.old.code.given head }
        ensures text { IfOk result (λ text. text ≡ record {
          head = length self.old.code.instructions;
          number = length self.old.code.added.texts;
        }) }
        ensures opened { OnOk result (self.new ≡ text_opened self.old here head) }
    {
        let number = self.code.add_text(head)?;
        let head = self.append(
            here,
            Instr::Text {
                head: number,
                behind: 0,
            },
        )?;
        Ok(OpenText { head, number })
    }

    /// The end of a text.
    pub fn close_text(&mut self, here: Here, text: OpenText) -> Result<(), AllocError>
        requires head { text.head < length self.old.code.instructions }
        requires number { text.number < length self.old.code.added.texts }
        ensures { OnOk result (self.new ≡ text_closed self.old here text) }
    {
        self.append(here, Instr::Return)?;
        let behind = self.next()?;
        let head = text.number;
        self.code.replace(text.head, Instr::Text { head, behind });
        Ok(())
    }

    /// The value of a text, made into a type and pushed.
    pub fn aside(&mut self, here: Here, head: u32, kind: SimpleType) -> Result<(), AllocError>
        requires { KindFits self.old.code.given kind }
        ensures { OnOk result (self.new ≡ with_aside self.old here head kind) }
    {
        let aside = Instr::Aside {
            purpose: Purpose::Value,
            kind: Some(kind),
            head,
        };
        self.append(here, aside)?;
        self.append(here, Instr::End)?;
        self.append(here, Instr::Push)?;
        Ok(())
    }

    /// A copied actual, pushed.
    pub fn thunk(
        &mut self,
        here: Here,
        head: u32,
        kind: Option<SimpleType>,
        is_variable: bool,
    ) -> Result<(), AllocError>
        requires { KindsFit self.old.code.given kind }
        ensures { OnOk result (self.new ≡ with_thunk self.old here head kind is_variable) }
    {
        self.append(
            here,
            Instr::MakeThunk {
                is_variable,
                kind,
                head,
            },
        )?;
        self.append(here, Instr::Push)?;
        Ok(())
    }

    /// A call that compares, of which the texts that are pending, but for the first so many, are those of its actuals.
    pub fn compared(&mut self, source: Source, pending: usize, end: u32) -> Result<u32, AllocError>
        requires { pending ≤ length self.old.pending.items }
        ensures number { IfOk result (λ n. n ≡ length self.old.code.added.calls) }
        ensures added { OnOk result (Compares self.old self.new source (drop pending self.old.pending.items) end) }
    {
        let mut heads = Vec::new(self.alloc);
        for head in &self.pending[pending..] {
            heads.push(*head)?;
        }
        let call = ComparedCall::new(source, true, heads, end, self.alloc)?;
        self.code.add_call(call)
    }
}
