//! What holds of the traps of all alerts, over definitions alone. These functions do nothing when they run.
ghost use Rattle.std.specs.Prelude.{◌≡◌, ℕ, List, Option};
ghost use Rattle.pet_body.specs.declared.body.Body.{Body};
ghost use Rattle.pet_body.specs.Event.{ack_for};
ghost use Rattle.alert_trap.specs.declared.origin.Origin.{Origin};
ghost use Rattle.alert_trap.specs.declared.draw.Draw.{Draw};
ghost use Rattle.alert_trap.specs.Trap.{alert_body};
ghost use Rattle.alert_trap.specs.Acknowledgement.{ack_awaited};
ghost use Rattle.alert_trap.specs.Laws.{CanBeSent, IsItsTrap};

/// The octets of an alert's trap are the shortest spelling of it, are read as this trap and no other, and the body in them
/// is read as the alert's body. They are at most 190.
pub fn trap_law()
    ensures { (origin : Origin) (draw : Draw) (event : Option (List ℕ)) (severity : ℕ) (text community : List ℕ)
        → CanBeSent origin draw event text community → IsItsTrap origin draw event severity text community }
{}

/// What is awaited is the acknowledgement of the trap's body. It depends on the sequence number and the event alone.
pub fn acknowledgement_law()
    ensures { (origin : Origin) (draw : Draw) (event : Option (List ℕ)) (severity : ℕ) (text : List ℕ)
        → ack_for (alert_body origin draw event severity text) ≡ ack_awaited draw.sequence event }
{}
