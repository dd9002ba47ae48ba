//! What a datagram says.
ghost use Rattle.std.specs.Prelude.{◌≡◌};
ghost use Rattle.snmp_trap.specs.Grammar.{IsBody};
ghost use Rattle.pet_body.specs.Layout.{body_in};
ghost use Rattle.trap_console.specs.Received.{received, ack_step};

use crate::row::Row;
use asf_rmcp::ack_frame;
use board_core::{Address, Step};
use pet_body::{Body, pet_ack_of};
use snmp_trap::{Refusal, decode};

/// The trap in a datagram, or why there is none.
pub(crate) fn received(from: &Address, octets: &[u8]) -> Result<Row, Refusal>
    ensures { result ≡ received from.now octets.now }
{
    match decode(octets) {
        Ok(view) => Ok(Row {
            from: *from,
            specific: view.specific,
            body: body_of(view.body),
        }),
        Err(refusal) => Err(refusal),
    }
}

// The fields of a trap's body.
fn body_of(octets: &[u8]) -> Body
    requires { IsBody octets.now }
    ensures { result ≡ body_in octets.now }
{
    Body::read(octets).unwrap()
}

/// The acknowledgement of a trap, to its sender's address at this port.
pub(crate) fn ack_of(row: &Row, port: u16) -> Step
    ensures { result ≡ ack_step port row.now }
{
    Step::Datagram {
        to: Address {
            ip: row.from.ip,
            port,
        },
        octets: ack_frame(&pet_ack_of(&row.body)),
    }
}
