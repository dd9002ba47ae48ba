//! What a history is made of.
use board_core::Told;

/// An entry of a history: an item that was taken, or the outcome of a step that was issued.
#[derive(Drop)]
pub enum Entry<I> {
    /// An item that was taken.
    Item(I),
    /// What was told of the step that was due.
    Outcome(Told),
}
