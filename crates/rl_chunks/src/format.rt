//! The forms that a chunk's bytes may have.

/// How a chunk is written. The first bytes name its form, and the form says how many bytes the length of a line has.
#[derive(Clone, Copy, Debug, PartialEq, Eq)]
pub enum Format {
    /// `RLC1`, two bytes of length.
    Short,
}
