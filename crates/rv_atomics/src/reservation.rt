//! What a hart has reserved.

/// The bytes that LR has registered for SC: its reservation set (section 8.2), which is a word here.
#[derive(Clone, Copy, Debug, PartialEq, Eq)]
pub enum Reservation {
    Nothing,
    /// The word at this address.
    Word(u32),
}
