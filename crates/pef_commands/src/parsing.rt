//! Which command a request is.
ghost use Rattle.std.specs.Prelude.{◌≡◌, ◌≤◌, length};
ghost use Rattle.pef_commands.specs.Parsing.{parsed, bare as bare_of, postpone as postpone_of, set_pef as set_pef_of, get_pef as get_pef_of, set_last as set_last_of, alert_immediate as alert_immediate_of, string_of as string_of_octet, set_lan as set_lan_of, get_lan as get_lan_of, acknowledge as acknowledge_of, clear_sel as clear_sel_of, asks_revision as asks_revision_of};

use crate::command::Command;
use crate::request::Request;
use board_core::Bytes;
use byteorder::{ByteOrder, LittleEndian};
use pet_body::PetAck;

/// Completion code: the parameters of a platform event aren't supported.
const NO_EVENT_PARAMETERS: u8 = 0x83;
/// Completion code: there is no such command.
const INVALID_COMMAND: u8 = 0xC1;
/// Completion code: the request hasn't the length of its command.
const LENGTH: u8 = 0xC7;
/// Completion code: a field has a value that isn't supported.
const FIELD: u8 = 0xCC;

/// The network functions whose commands are known (IPMI 2.0, table 5-1): sensor and event, storage, and transport.
const SENSOR_EVENT: u8 = 0x04;

const STORAGE: u8 = 0x0A;

const TRANSPORT: u8 = 0x0C;

/// The command that a request is, or the completion code that refuses it: C1h where its network function and command are
/// none, C7h by its length, 83h where Alert Immediate has the parameters of a platform event, CCh where Alert Immediate or
/// Clear SEL asks for something else than they can.
pub fn parse(request: &Request) -> Result<Command, u8>
    ensures { result ≡ parsed request.now }
{
    let payload = request.payload();
    match (request.netfn(), request.cmd()) {
        (SENSOR_EVENT, 0x10) => bare(Command::Capabilities, payload),
        (SENSOR_EVENT, 0x11) => postpone(payload),
        (SENSOR_EVENT, 0x12) => set_pef(payload),
        (SENSOR_EVENT, 0x13) => get_pef(payload),
        (SENSOR_EVENT, 0x14) => set_last(payload),
        (SENSOR_EVENT, 0x15) => bare(Command::GetLast, payload),
        (SENSOR_EVENT, 0x16) => alert_immediate(payload),
        (SENSOR_EVENT, 0x17) => acknowledge(payload),
        (STORAGE, 0x47) => clear_sel(payload),
        (TRANSPORT, 0x01) => set_lan(payload),
        (TRANSPORT, 0x02) => get_lan(payload),
        _ => Err(INVALID_COMMAND),
    }
}

/// A command that has no data.
fn bare(command: Command, payload: &[u8]) -> Result<Command, u8>
    ensures { result ≡ bare_of command payload.now }
{
    if !payload.is_empty() {
        return Err(LENGTH);
    }
    Ok(command)
}

fn postpone(payload: &[u8]) -> Result<Command, u8>
    ensures { result ≡ postpone_of payload.now }
{
    let [value] = payload else {
        return Err(LENGTH);
    };
    Ok(Command::Postpone(*value))
}

fn set_pef(payload: &[u8]) -> Result<Command, u8>
    requires { length payload.now ≤ 64 }
    ensures { result ≡ set_pef_of payload.now }
{
    let [parameter, rest @ ..] = payload else {
        return Err(LENGTH);
    };
    Ok(Command::SetPef {
        parameter: parameter % 128,
        payload: bytes_of(rest),
    })
}

fn get_pef(payload: &[u8]) -> Result<Command, u8>
    ensures { result ≡ get_pef_of payload.now }
{
    let [parameter, set, block] = payload else {
        return Err(LENGTH);
    };
    Ok(Command::GetPef {
        parameter: parameter % 128,
        revision_only: asks_revision(*parameter),
        set: set % 128,
        block: *block,
    })
}

fn set_last(payload: &[u8]) -> Result<Command, u8>
    ensures { result ≡ set_last_of payload.now }
{
    if payload.len() != 3 {
        return Err(LENGTH);
    }
    Ok(Command::SetLast {
        bmc: payload[0] % 2 == 1,
        id: LittleEndian::read_u16(&payload[1..]),
    })
}

fn alert_immediate(payload: &[u8]) -> Result<Command, u8>
    ensures { result ≡ alert_immediate_of payload.now }
{
    if payload.len() == 11 {
        return Err(NO_EVENT_PARAMETERS);
    }
    let [channel, destination, string] = payload else {
        return Err(LENGTH);
    };
    match destination / 64 {
        0 => Ok(Command::Send {
            channel: channel % 16,
            destination: destination % 16,
            string: string_of(*string),
        }),
        1 => Ok(Command::SendStatus),
        2 => Ok(Command::SendClear),
        _ => Err(FIELD),
    }
}

fn set_lan(payload: &[u8]) -> Result<Command, u8>
    requires { length payload.now ≤ 64 }
    ensures { result ≡ set_lan_of payload.now }
{
    let [channel, parameter, rest @ ..] = payload else {
        return Err(LENGTH);
    };
    Ok(Command::SetLan {
        channel: channel % 16,
        parameter: *parameter,
        payload: bytes_of(rest),
    })
}

fn get_lan(payload: &[u8]) -> Result<Command, u8>
    ensures { result ≡ get_lan_of payload.now }
{
    let [channel, parameter, set, _] = payload else {
        return Err(LENGTH);
    };
    Ok(Command::GetLan {
        channel: channel % 16,
        parameter: *parameter,
        revision_only: asks_revision(*channel),
        set: set % 16,
    })
}

fn acknowledge(payload: &[u8]) -> Result<Command, u8>
    ensures { result ≡ acknowledge_of payload.now }
{
    if payload.len() != 12 {
        return Err(LENGTH);
    }
    Ok(Command::Acknowledge(PetAck {
        sequence: LittleEndian::read_u16(payload),
        timestamp: LittleEndian::read_u32(&payload[2..]),
        event_source: payload[6],
        device: payload[7],
        sensor: payload[8],
        event_data: [payload[9], payload[10], payload[11]],
    }))
}

fn clear_sel(payload: &[u8]) -> Result<Command, u8>
    ensures { result ≡ clear_sel_of payload.now }
{
    let [_, _, c, l, r, operation] = payload else {
        return Err(LENGTH);
    };
    if [*c, *l, *r] != *b"CLR" {
        return Err(FIELD);
    }
    match operation {
        0xAA => Ok(Command::ClearSel),
        0x00 => Ok(Command::ClearStatus),
        _ => Err(FIELD),
    }
}

/// The number of the string that an octet asks for, by its bit 7.
fn string_of(octet: u8) -> Option<u8>
    ensures { result ≡ string_of_octet octet }
{
    if octet < 128 {
        return None;
    }
    Some(octet % 128)
}

/// Whether bit 7 of an octet asks for the revision alone.
fn asks_revision(octet: u8) -> bool
    ensures { result ≡ asks_revision_of octet }
{
    octet >> 7 == 1
}

fn bytes_of(octets: &[u8]) -> Bytes<64>
    requires { length octets.now ≤ 64 }
    ensures { result ≡ octets.now }
{
    let mut bytes = Bytes::new();
    bytes.extend(octets);
    bytes
}
