// Writes the last line of a call.
ghost use Rattle.report_line.specs.Finishing.{Finishes};

use crate::ending::{Ending, last_line, status};
use board_core::Sink;

/// Writes the last line of a call that ends so, and answers its status. Where the line can't be written the status is 8 in place
/// of 0, and any other stays.
pub fn finish<K: Sink>(out: &mut K, ending: Ending) -> u8
    ensures { Finishes (K.written out.old) (K.written out.new) (K.faults out.old) (K.faults out.new) ending result }
{
    let line = last_line(ending);
    let said = out.write(line.as_slice());
    match (said, status(ending)) {
        (Err(_), 0) => 8,
        (_, status) => status,
    }
}
