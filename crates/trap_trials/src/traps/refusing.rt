use super::*;

/// Where the vector's elements stand.
const VERSION: usize = 2;

const COMMUNITY: usize = 5;

const TRAP: usize = 13;

const ENTERPRISE: usize = 15;

const AGENT: usize = 26;

const GENERIC: usize = 32;

const SPECIFIC: usize = 35;

const LIST: usize = 43;

const BINDING: usize = 45;

const NAME: usize = 47;

const VALUE: usize = 59;

/// No change: no octet stands at this place.
const NONE: (usize, u8) = (108, 0x00);

#[test]
fn refuses_a_changed_vector_at_its_place(rt: HostRuntime) {
    let cases = [
        // The message.
        ((0, 0x31), NONE, Why::Tag, 0),
        ((1, 0x80), NONE, Why::Length, 1),
        ((1, 0x85), NONE, Why::Length, 1),
        ((1, 0xFF), NONE, Why::Length, 1),
        ((1, 0x6B), NONE, Why::Truncated, 108),
        ((1, 0x84), NONE, Why::Truncated, 108),
        ((0, 0x31), (1, 0x80), Why::Tag, 0),
        ((1, 0x6B), (VERSION, 0x04), Why::Truncated, 108),
        ((1, 0x69), NONE, Why::Over, TRAP),
        // The version.
        ((VERSION, 0x04), NONE, Why::Tag, VERSION),
        ((3, 0x80), NONE, Why::Length, 3),
        ((3, 0x85), NONE, Why::Length, 3),
        ((3, 0x7F), NONE, Why::Over, VERSION),
        ((3, 0x00), NONE, Why::Integer, VERSION),
        ((3, 0x06), NONE, Why::Integer, VERSION),
        ((4, 0x01), NONE, Why::Version, VERSION),
        ((VERSION, 0x04), (3, 0x80), Why::Tag, VERSION),
        ((3, 0x7F), (4, 0x01), Why::Over, VERSION),
        ((4, 0x01), (COMMUNITY, 0x05), Why::Version, VERSION),
        // The community.
        ((COMMUNITY, 0x05), NONE, Why::Tag, COMMUNITY),
        ((6, 0x80), NONE, Why::Length, 6),
        ((6, 0x7F), NONE, Why::Over, COMMUNITY),
        ((6, 0x05), NONE, Why::Tag, 12),
        // The trap.
        ((TRAP, 0xA5), NONE, Why::Tag, TRAP),
        ((14, 0x80), NONE, Why::Length, 14),
        ((14, 0x5E), NONE, Why::Over, TRAP),
        ((14, 0x5C), NONE, Why::Over, LIST),
        ((14, 0x5E), (ENTERPRISE, 0x07), Why::Over, TRAP),
        // The enterprise.
        ((ENTERPRISE, 0x07), NONE, Why::Tag, ENTERPRISE),
        ((16, 0x80), NONE, Why::Length, 16),
        ((16, 0x7F), NONE, Why::Over, ENTERPRISE),
        ((17, 0x2A), NONE, Why::Enterprise, ENTERPRISE),
        ((16, 0x00), NONE, Why::Enterprise, ENTERPRISE),
        ((16, 0x08), NONE, Why::Enterprise, ENTERPRISE),
        ((16, 0x7F), (17, 0x2A), Why::Over, ENTERPRISE),
        // The agent.
        ((AGENT, 0x41), NONE, Why::Tag, AGENT),
        ((27, 0x80), NONE, Why::Length, 27),
        ((27, 0x03), NONE, Why::Length, 27),
        ((27, 0x05), NONE, Why::Length, 27),
        ((27, 0x7F), NONE, Why::Over, AGENT),
        // The generic trap.
        ((GENERIC, 0x03), NONE, Why::Tag, GENERIC),
        ((33, 0x84), NONE, Why::Over, GENERIC),
        ((33, 0x00), NONE, Why::Integer, GENERIC),
        ((33, 0x06), NONE, Why::Integer, GENERIC),
        ((34, 0x05), NONE, Why::Generic, GENERIC),
        ((34, 0x07), NONE, Why::Generic, GENERIC),
        // The specific number.
        ((SPECIFIC, 0x04), NONE, Why::Tag, SPECIFIC),
        ((36, 0x00), NONE, Why::Integer, SPECIFIC),
        ((36, 0x06), NONE, Why::Integer, SPECIFIC),
        ((36, 0x05), NONE, Why::Integer, SPECIFIC),
        // The time-stamp.
        ((TICKS, 0x02), NONE, Why::Tag, TICKS),
        ((41, 0x00), NONE, Why::Integer, TICKS),
        ((41, 0x81), NONE, Why::Integer, TICKS),
        // The list of bindings.
        ((LIST, 0x31), NONE, Why::Tag, LIST),
        ((44, 0x80), NONE, Why::Length, 44),
        ((44, 0x40), NONE, Why::Over, LIST),
        ((44, 0x3E), NONE, Why::Over, BINDING),
        // The binding.
        ((BINDING, 0x31), NONE, Why::Tag, BINDING),
        ((46, 0x80), NONE, Why::Length, 46),
        ((46, 0x3E), NONE, Why::Over, BINDING),
        ((46, 0x3C), NONE, Why::Over, VALUE),
        ((46, 0x00), NONE, Why::Over, NAME),
        ((46, 0x0C), NONE, Why::Over, VALUE),
        // Its name.
        ((NAME, 0x05), NONE, Why::Tag, NAME),
        ((48, 0x80), NONE, Why::Length, 48),
        ((48, 0x3C), NONE, Why::Over, NAME),
        ((49, 0x2A), NONE, Why::NoBinding, LIST),
        ((57, 0x02), NONE, Why::NoBinding, LIST),
        ((58, 0x02), NONE, Why::NoBinding, LIST),
        ((49, 0x2A), (VALUE, 0x05), Why::NoBinding, LIST),
        ((49, 0x2A), (VALUE, 0x1F), Why::Tag, VALUE),
        ((49, 0x2A), (VALUE, 0xFF), Why::Tag, VALUE),
        ((49, 0x2A), (60, 0x30), Why::Over, VALUE),
        ((49, 0x2A), (60, 0x2E), Why::Trailing, 107),
        // Its value.
        ((VALUE, 0x05), NONE, Why::Tag, VALUE),
        ((60, 0x80), NONE, Why::Length, 60),
        ((60, 0x30), NONE, Why::Over, VALUE),
        ((60, 0x2E), NONE, Why::Trailing, 107),
        ((60, 0x2D), NONE, Why::Body, VALUE),
        ((VALUE, 0x05), (60, 0x80), Why::Tag, VALUE),
    ];
    for (first, second, why, at) in cases {
        let octets = changed(108, &[first, second], &[]);
        assert_eq!(rt; decode(octets.as_slice()).err(), Some(Refusal { at, why }));
    }
}

#[test]
fn refuses_what_is_cut_or_followed(rt: HostRuntime) {
    for kept in 0..108 {
        let refusal = Refusal {
            at: kept,
            why: Why::Truncated,
        };
        assert_eq!(rt; decode(&VECTOR[..kept]).err(), Some(refusal));
    }
    let after = [
        // Behind the message, in it, in the trap, in the list and in the binding.
        ([NONE, NONE, NONE, NONE], [0x00, 0x00], Why::Trailing, 108),
        (
            [(1, 0x6C), NONE, NONE, NONE],
            [0x00, 0x00],
            Why::Trailing,
            108,
        ),
        (
            [(1, 0x6C), (14, 0x5F), NONE, NONE],
            [0x00, 0x00],
            Why::Trailing,
            108,
        ),
        (
            [(1, 0x6C), (14, 0x5F), (44, 0x41), NONE],
            [0x00, 0x00],
            Why::Tag,
            108,
        ),
        (
            [(1, 0x6C), (14, 0x5F), (44, 0x41), NONE],
            [0x30, 0x80],
            Why::Length,
            109,
        ),
        (
            [(1, 0x6C), (14, 0x5F), (44, 0x41), NONE],
            [0x30, 0x01],
            Why::Over,
            108,
        ),
        (
            [(1, 0x6C), (14, 0x5F), (44, 0x41), NONE],
            [0x30, 0x81],
            Why::Over,
            108,
        ),
        (
            [(1, 0x6C), (14, 0x5F), (44, 0x41), NONE],
            [0x30, 0x00],
            Why::Over,
            110,
        ),
        (
            [(1, 0x6C), (14, 0x5F), (44, 0x41), (46, 0x3F)],
            [0x00, 0x00],
            Why::Trailing,
            108,
        ),
    ];
    for (changes, tail, why, at) in after {
        let octets = changed(108, &changes, &tail);
        assert_eq!(rt; decode(octets.as_slice()).err(), Some(Refusal { at, why }));
    }
    let one_more = changed(108, &[], &[0x00]);
    let refusal = Refusal {
        at: 108,
        why: Why::Trailing,
    };
    assert_eq!(rt; decode(one_more.as_slice()).err(), Some(refusal));
    let empty_list = changed(45, &[(1, 0x2B), (14, 0x1E), (44, 0x00)], &[]);
    let refusal = Refusal {
        at: LIST,
        why: Why::NoBinding,
    };
    assert_eq!(rt; decode(empty_list.as_slice()).err(), Some(refusal));
}
