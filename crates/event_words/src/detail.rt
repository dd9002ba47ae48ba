//! What event data 2 and 3 hold (IPMI 2.0, section 29.7).
ghost use Rattle.std.specs.Prelude.{◌≡◌, slice_index};
ghost use Rattle.event_words.specs.Details.{use_of_2, use_of_3, detail_2, detail_3};

use crate::event_type::EventType;

/// What an octet of event data holds, with the octet.
#[derive(Clone, Copy, Debug, PartialEq, Eq)]
pub enum Detail {
    /// The reading at which a threshold event came.
    Reading(u8),
    /// The threshold of a threshold event.
    Threshold(u8),
    /// The previous state in bits 3:0 and a severity in bits 7:4, each as an offset, 0Fh if unspecified.
    Previous(u8),
    /// The same of an OEM event type, or OEM codes in their place.
    OemPrevious(u8),
    /// What the manufacturer defines.
    Oem(u8),
    /// An extension of the event that its sensor type defines.
    Extension(u8),
    /// What the standard leaves reserved.
    Reserved(u8),
}

/// What event data 2 holds: None where it is unspecified.
pub fn detail_2(kind: EventType, event_data: [u8; 3]) -> Option<Detail>
    ensures { result ≡ detail_2 kind (use_of_2 (slice_index event_data 0)) (slice_index event_data 1) }
{
    let [first, octet, _] = event_data;
    match (kind, first / 0x40) {
        (EventType::Unspecified | EventType::Reserved(_), _) | (_, 0) => None,
        (EventType::Threshold, 1) => Some(Detail::Reading(octet)),
        (EventType::Oem(_), 1) => Some(Detail::OemPrevious(octet)),
        (_, 1) => Some(Detail::Previous(octet)),
        (_, 2) => Some(Detail::Oem(octet)),
        (EventType::Oem(_), _) => Some(Detail::Reserved(octet)),
        (_, _) => Some(Detail::Extension(octet)),
    }
}

/// What event data 3 holds: None where it is unspecified.
pub fn detail_3(kind: EventType, event_data: [u8; 3]) -> Option<Detail>
    ensures { result ≡ detail_3 kind (use_of_3 (slice_index event_data 0)) (slice_index event_data 2) }
{
    let [first, _, octet] = event_data;
    match (kind, first / 0x10 % 4) {
        (EventType::Unspecified | EventType::Reserved(_), _) | (_, 0) => None,
        (EventType::Threshold, 1) => Some(Detail::Threshold(octet)),
        (_, 1) => Some(Detail::Reserved(octet)),
        (_, 2) => Some(Detail::Oem(octet)),
        (EventType::Oem(_), _) => Some(Detail::Reserved(octet)),
        (_, _) => Some(Detail::Extension(octet)),
    }
}
