use crate::types::PhraseType;
use value_ops::Diagnostic;

/// What a row of the table says of a phrase: its type, or why it has none.
pub type Verdict<'a> = Result<PhraseType<'a>, NoType>;

/// Why a phrase has no type.
#[derive(Clone, Copy, Debug, PartialEq, Eq)]
pub enum NoType {
    /// The first condition of its row that fails gives this diagnostic.
    Fault(Diagnostic),
    /// A part of it has no type: then nothing is said of it.
    Silent,
}
