//! Worked rows: which command a request is.
use pef_commands::*;
use std::alloc::{AllocError, Global};
use std::test::Fail;

/// A fan's trap is acknowledged: sequence number 1, 116387200 seconds since 1998-01-01.
const ACKNOWLEDGEMENT: [u8; 12] = [
    0x01, 0x00, 0x80, 0xED, 0xEF, 0x06, 0x20, 0x20, 0x30, 0x52, 0x10, 0x20,
];

/// A command as octets: its own number, its fields, and what is to be written; or the code alone.
fn shown(alloc: Global, parsed: Result<Command, u8>) -> Result<Vec<u8>, AllocError> {
    let mut octets = Vec::new(alloc);
    match parsed {
        Err(code) => octets.push(code)?,
        Ok(Command::Capabilities) => octets.push(0x10)?,
        Ok(Command::Postpone(value)) => octets.extend_from_slice(&[0x11, value])?,
        Ok(Command::SetPef { parameter, payload }) => {
            octets.extend_from_slice(&[0x12, parameter])?;
            octets.extend_from_slice(payload.as_slice())?;
        }
        Ok(
            Command::GetPef {
                parameter,
                revision_only,
                set,
                block,
            },
        ) => octets.extend_from_slice(&[0x13, parameter, u8::from(revision_only), set, block])?,
        Ok(Command::SetLast { bmc, id }) => {
            octets.extend_from_slice(&[0x14, u8::from(bmc)])?;
            octets.extend_from_slice(&id.to_be_bytes())?;
        }
        Ok(Command::GetLast) => octets.push(0x15)?,
        Ok(
            Command::Send {
                channel,
                destination,
                string,
            },
        ) => {
            octets.extend_from_slice(&[0x16, channel, destination])?;
            octets.extend_from_slice(&[u8::from(string.is_some()), string.unwrap_or(0)])?;
        }
        Ok(Command::SendStatus) => octets.extend_from_slice(&[0x16, 0x01])?,
        Ok(Command::SendClear) => octets.extend_from_slice(&[0x16, 0x02])?,
        Ok(
            Command::SetLan {
                channel,
                parameter,
                payload,
            },
        ) => {
            octets.extend_from_slice(&[0x01, channel, parameter])?;
            octets.extend_from_slice(payload.as_slice())?;
        }
        Ok(
            Command::GetLan {
                channel,
                parameter,
                revision_only,
                set,
            },
        ) => octets.extend_from_slice(&[0x02, channel, parameter, u8::from(revision_only), set])?,
        Ok(Command::Acknowledge(ack)) => {
            octets.push(0x17)?;
            octets.extend_from_slice(&ack.sequence.to_be_bytes())?;
            octets.extend_from_slice(&ack.timestamp.to_be_bytes())?;
            octets.extend_from_slice(&[ack.event_source, ack.device, ack.sensor])?;
            octets.extend_from_slice(&ack.event_data)?;
        }
        Ok(Command::ClearSel) => octets.extend_from_slice(&[0x47, 0xAA])?,
        Ok(Command::ClearStatus) => octets.extend_from_slice(&[0x47, 0x00])?,
    }
    Ok(octets)
}

#[test]
fn a_request_is_its_command_or_a_code(rt: HostRuntime) -> Result<(), Fail> {
    // Network function, command, data; and what is made of them.
    let rows: [(u8, u8, &[u8], &[u8]); 27] = [
        (0x04, 0x12, &[], &[0xC7]),
        (0x04, 0x12, &[0x05], &[0x12, 0x05]),
        (0x04, 0x12, &[0x05, 0x10], &[0x12, 0x05, 0x10]),
        (0x04, 0x12, &[0x87, 0x01, 0x80], &[0x12, 0x07, 0x01, 0x80]),
        (0x04, 0x13, &[0x05, 0x00], &[0xC7]),
        (0x04, 0x13, &[0x05, 0x00, 0x00, 0x00], &[0xC7]),
        (
            0x04,
            0x13,
            &[0x05, 0x00, 0x00],
            &[0x13, 0x05, 0, 0x00, 0x00],
        ),
        (
            0x04,
            0x13,
            &[0x86, 0x81, 0x82],
            &[0x13, 0x06, 1, 0x01, 0x82],
        ),
        (
            0x04,
            0x13,
            &[0x7F, 0xFF, 0xFF],
            &[0x13, 0x7F, 0, 0x7F, 0xFF],
        ),
        (0x0C, 0x01, &[0x01], &[0xC7]),
        (0x0C, 0x01, &[], &[0xC7]),
        (0x0C, 0x01, &[0x01, 0x12], &[0x01, 0x01, 0x12]),
        (0x0C, 0x01, &[0xF2, 0x92, 0x01], &[0x01, 0x02, 0x92, 0x01]),
        (0x0C, 0x02, &[0x01, 0x12, 0x01], &[0xC7]),
        (0x0C, 0x02, &[0x01, 0x12, 0x01, 0x00, 0x00], &[0xC7]),
        (
            0x0C,
            0x02,
            &[0x01, 0x12, 0x01, 0x00],
            &[0x02, 0x01, 0x12, 0, 0x01],
        ),
        (
            0x0C,
            0x02,
            &[0x82, 0x92, 0xF4, 0xFF],
            &[0x02, 0x02, 0x92, 1, 0x04],
        ),
        // An acknowledgement, whose numbers are shown with the most significant octet first.
        (
            0x04,
            0x17,
            &ACKNOWLEDGEMENT,
            &[
                0x17, 0x00, 0x01, 0x06, 0xEF, 0xED, 0x80, 0x20, 0x20, 0x30, 0x52, 0x10, 0x20,
            ],
        ),
        (0x04, 0x17, &ACKNOWLEDGEMENT[..11], &[0xC7]),
        (0x04, 0x17, &[0x01; 13], &[0xC7]),
        (0x04, 0x17, &[], &[0xC7]),
        (0x0C, 0x17, &ACKNOWLEDGEMENT, &[0xC1]),
        (0x04, 0x99, &[], &[0xC1]),
        (0x04, 0x01, &[0x01, 0x12], &[0xC1]),
        (0x0C, 0x12, &[0x00], &[0xC1]),
        (0x05, 0x13, &[0x05, 0x00, 0x00], &[0xC1]),
        (0x00, 0x00, &[], &[0xC1]),
    ];
    for (netfn, cmd, payload, wanted) in rows {
        let request = Request::read(netfn, cmd, payload).ok_or("no request")?;
        let made = shown(rt.alloc(), parse(&request))?;
        assert_eq!(rt; made.as_slice(), wanted, "{netfn} {cmd} {payload:?}");
    }
    Ok(())
}

#[test]
fn events_and_the_log_have_commands(rt: HostRuntime) -> Result<(), Fail> {
    // Network function, command, data; and what is made of them, the most significant octet of an ID first.
    let rows: [(u8, u8, &[u8], &[u8]); 40] = [
        (0x04, 0x10, &[], &[0x10]),
        (0x04, 0x10, &[0x00], &[0xC7]),
        (0x04, 0x11, &[], &[0xC7]),
        (0x04, 0x11, &[0xFE], &[0x11, 0xFE]),
        (0x04, 0x11, &[0xFE, 0x00], &[0xC7]),
        // Bit 0 is the mark.
        (0x04, 0x14, &[0x00, 0x34], &[0xC7]),
        (0x04, 0x14, &[0xFE, 0x34, 0x12], &[0x14, 0, 0x12, 0x34]),
        (0x04, 0x14, &[0x01, 0xFF, 0x00], &[0x14, 1, 0x00, 0xFF]),
        (0x04, 0x14, &[0x01, 0xFF, 0x00, 0x00], &[0xC7]),
        (0x04, 0x15, &[], &[0x15]),
        (0x04, 0x15, &[0x00], &[0xC7]),
        // Alert Immediate: 83h, then the length, then the operation.
        (0x04, 0x16, &[0xC0; 11], &[0x83]),
        (0x04, 0x16, &[0xC0; 10], &[0xC7]),
        (0x04, 0x16, &[0xC0; 12], &[0xC7]),
        (0x04, 0x16, &[0x01, 0xC2], &[0xC7]),
        (0x04, 0x16, &[0x01, 0xC2, 0x00, 0x00], &[0xC7]),
        (0x04, 0x16, &[], &[0xC7]),
        (0x04, 0x16, &[0x01, 0xC2, 0x00], &[0xCC]),
        (0x04, 0x16, &[0xF1, 0xFF, 0xFF], &[0xCC]),
        (0x04, 0x16, &[0xF1, 0x32, 0x85], &[0x16, 1, 2, 1, 5]),
        (0x04, 0x16, &[0x0F, 0x0F, 0x7F], &[0x16, 15, 15, 0, 0]),
        (0x04, 0x16, &[0x0F, 0x0F, 0xFF], &[0x16, 15, 15, 1, 127]),
        (0x04, 0x16, &[0x01, 0x42, 0x85], &[0x16, 0x01]),
        (0x04, 0x16, &[0x01, 0x82, 0x85], &[0x16, 0x02]),
        // Clear SEL: the length, then the letters, then the operation.
        (0x0A, 0x47, &[0x00, 0x00, 0x43, 0x4C, 0x53], &[0xC7]),
        (
            0x0A,
            0x47,
            &[0x00, 0x00, 0x43, 0x4C, 0x52, 0xAA, 0x00],
            &[0xC7],
        ),
        (0x0A, 0x47, &[], &[0xC7]),
        (0x0A, 0x47, &[0x00, 0x00, 0x42, 0x4C, 0x52, 0xAA], &[0xCC]),
        (0x0A, 0x47, &[0x00, 0x00, 0x43, 0x4D, 0x52, 0xAA], &[0xCC]),
        (0x0A, 0x47, &[0x00, 0x00, 0x43, 0x4C, 0x53, 0x00], &[0xCC]),
        (0x0A, 0x47, &[0x00, 0x00, 0x43, 0x4C, 0x52, 0xAB], &[0xCC]),
        (0x0A, 0x47, &[0x00, 0x00, 0x43, 0x4C, 0x52, 0x01], &[0xCC]),
        (
            0x0A,
            0x47,
            &[0x12, 0x34, 0x43, 0x4C, 0x52, 0xAA],
            &[0x47, 0xAA],
        ),
        (
            0x0A,
            0x47,
            &[0x12, 0x34, 0x43, 0x4C, 0x52, 0x00],
            &[0x47, 0x00],
        ),
        // The neighbours are no commands.
        (0x04, 0x0F, &[], &[0xC1]),
        (0x04, 0x18, &[], &[0xC1]),
        (0x0A, 0x10, &[], &[0xC1]),
        (0x0A, 0x46, &[0x00, 0x00, 0x43, 0x4C, 0x52, 0xAA], &[0xC1]),
        (0x04, 0x47, &[0x00, 0x00, 0x43, 0x4C, 0x52, 0xAA], &[0xC1]),
        (0x0C, 0x10, &[], &[0xC1]),
    ];
    for (netfn, cmd, payload, wanted) in rows {
        let request = Request::read(netfn, cmd, payload).ok_or("no request")?;
        let made = shown(rt.alloc(), parse(&request))?;
        assert_eq!(rt; made.as_slice(), wanted, "{netfn} {cmd} {payload:?}");
    }
    Ok(())
}

#[test]
fn a_request_has_six_bits_and_64_octets(rt: HostRuntime) -> Result<(), Fail> {
    let octets = [0xA5; 65];
    let whole = Request::read(0x3F, 0xFF, &octets[..64]).ok_or("64 octets")?;
    assert_eq!(rt; (whole.netfn(), whole.cmd()), (0x3F, 0xFF));
    assert_eq!(rt; whole.payload(), &octets[..64]);
    assert!(rt; Request::read(0x40, 0xFF, &[]).is_none());
    assert!(rt; Request::read(0xFF, 0x12, &[]).is_none());
    assert!(rt; Request::read(0x3F, 0xFF, &octets).is_none());
    Ok(())
}
