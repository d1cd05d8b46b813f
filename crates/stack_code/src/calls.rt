ghost use Rattle.std.specs.Prelude.{◌≡◌, IfOk};

use crate::instructions::Source;
use std::alloc::{AllocError, Global};
use std::marker::Model;
use std::mem::size_of;

/// A call of what stands for a name, whose actuals are compared with the formals of what is called. Most such calls have no
/// actuals, and have no room for their heads.
#[derive(Drop)]
pub struct ComparedCall {
    form: CallForm,
}

/// What is known of such a call.
#[derive(Drop)]
enum CallForm {
    /// Without actuals.
    Bare {
        /// Whether they are compared.
        compares: bool,
        /// What stands for the name.
        source: Source,
        /// The instruction that ends the call.
        end: u32,
    },
    /// With actuals.
    Full {
        /// Whether they are compared.
        compares: bool,
        /// What stands for the name.
        source: Source,
        /// The instruction that ends the call.
        end: u32,
        /// The heads of the actuals' texts.
        heads: Box<Vec<u32>>,
    },
}

const _: () = prove!(size_of::<ComparedCall>() == 24);

impl Model for ComparedCall {
    ghost use Rattle.stack_code.specs.Calls.{ComparedCall as Call};

    ghost Value = { Call };

    ghost use Rattle.stack_code.specs.CallForms.{call_in};

    ghost view = { λ c. call_in c.form };
}

impl ComparedCall {
    /// A call of what stands for a name, with the heads of its actuals' texts and the instruction that ends it.
    pub fn new(
        source: Source,
        compares: bool,
        heads: Vec<u32>,
        end: u32,
        alloc: Global,
    ) -> Result<ComparedCall, AllocError>
        ensures { IfOk result (λ c. c ≡ record { source = source; compares = compares; heads = heads.items; end = end }) }
    {
        let form = if heads.is_empty() {
            CallForm::Bare {
                compares,
                source,
                end,
            }
        } else {
            CallForm::Full {
                compares,
                source,
                end,
                heads: Box::new(alloc, heads)?,
            }
        };
        Ok(ComparedCall { form })
    }

    /// What stands for the name.
    pub fn source(&self) -> Source
        ensures { result ≡ self.now.source }
    {
        match &self.form {
            CallForm::Bare { source, .. } => *source,
            CallForm::Full { source, .. } => *source,
        }
    }

    /// Whether the actuals are compared.
    pub fn compares(&self) -> bool
        ensures { result ≡ self.now.compares }
    {
        match &self.form {
            CallForm::Bare { compares, .. } => *compares,
            CallForm::Full { compares, .. } => *compares,
        }
    }

    /// The heads of the actuals' texts.
    pub fn heads(&self) -> &[u32]
        ensures { result.now ≡ self.now.heads }
    {
        match &self.form {
            CallForm::Bare { .. } => &[],
            CallForm::Full { heads, .. } => heads.as_slice(),
        }
    }

    /// The instruction that ends the call.
    pub fn end(&self) -> u32
        ensures { result ≡ self.now.end }
    {
        match &self.form {
            CallForm::Bare { end, .. } => *end,
            CallForm::Full { end, .. } => *end,
        }
    }

    /// Something else stands for the name.
    pub(crate) fn set_source(&mut self, source: Source)
        ensures { self.new ≡ record self.old { source = source } }
    {
        match &mut self.form {
            CallForm::Bare { source: old, .. } => *old = source,
            CallForm::Full { source: old, .. } => *old = source,
        }
    }
}
