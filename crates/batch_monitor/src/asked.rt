/// What the words ask of the run of a batch that is read.
#[derive(Clone, Copy, Debug, PartialEq, Eq)]
pub struct Asked {
    /// Whether the accounts are those of an accounts file, and the closing balances go to one.
    pub accounts: bool,
    /// Whether a line of the operator's board follows the listing.
    pub board: bool,
}
