//! The forms in which memory is shown.

/// What bytes of a memory are shown as.
#[derive(Clone, Copy, Debug, PartialEq, Eq)]
pub enum Form {
    /// Words of four bytes, the low byte first, in hexadecimal.
    Words,
    /// Characters in quotes, up to the first byte that is 0.
    Text,
    /// The lines of a listing.
    Codes,
}
