//! Events for the log.
ghost use Rattle.std.specs.Prelude.{◌≡◌};
ghost use Rattle.event_record.specs.Rules.{record_fault};
ghost use Rattle.event_record.specs.Log.{add_fault};
ghost use Rattle.pef_core.specs.Past.{records_with, note_with};
ghost use Rattle.pef_core.specs.Deeds.{event_deed};

use crate::note::Note;
use event_record::{Log, Record};

/// Adds the record of these octets to the log, where they are one and the log takes it, and says what came of it.
pub(crate) fn add_event(log: &mut Log, octets: &[u8; 16]) -> Note
    ensures note { result ≡ note_with (event_deed (record_fault octets.now) (add_fault log.old octets.now) octets.now) Note.Nothing }
    ensures log { log.new ≡ records_with (event_deed (record_fault octets.now) (add_fault log.old octets.now) octets.now) log.old }
{
    let event = match Record::read(octets) {
        Ok(event) => event,
        Err(fault) => return Note::Refused(fault),
    };
    let id = event.id();
    match log.add(event) {
        Ok(()) => Note::Added(id),
        Err(fault) => Note::NotAdded(fault),
    }
}
