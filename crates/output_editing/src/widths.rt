/// How wide values are written.
#[derive(Clone, Copy, Debug, PartialEq, Eq)]
pub struct Widths {
    /// The columns of an INTEGER.
    pub integer: u8,
    /// The blanks behind a value that is no string.
    pub blanks: u8,
}
