//! Events in words, by the tables of IPMI 2.0.
#![tactic(auto)]

mod detail;
mod event;
mod event_type;
mod generic_states;
mod putting;
mod sensor_states;
mod sensor_types;
mod sentences;
mod severities;

pub use detail::{Detail, detail_2, detail_3};
pub use event::{Direction, Event};
pub use event_type::EventType;
pub use sentences::{oem_record_line, sentence_line};
