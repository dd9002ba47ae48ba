//! What a frame asks.

/// What an RMCP frame asks of the controller.
#[derive(Clone, Copy, Debug, PartialEq, Eq)]
pub enum FrameKind {
    /// A presence ping: a pong is due.
    Ping,
    /// The request PET Acknowledge: an answer is due.
    Command,
    /// Anything else, which has no effect.
    Nothing,
}
