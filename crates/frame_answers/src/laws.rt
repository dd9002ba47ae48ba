//! What the definition promises of answers. These functions do nothing when they run.
ghost use Rattle.frame_answers.specs.Laws.{AreShort, AreByLayout};

/// A frame has at most two replies, and none that has two acknowledges a trap.
pub fn few_replies()
    ensures { AreShort }
{}

/// A presence ping by its layout is answered by a pong, the request PET Acknowledge by its layout is answered and carried
/// out, and all other octets have no effect.
pub fn by_layout()
    ensures { AreByLayout }
{}
