//! The lines of a text, a reader of them over a `Source`, a script's head and end, the words that lines share, and what a settings
//! text is to a machine.
#![tactic(auto)]

mod addresses;
mod ends;
mod head;
mod laws;
mod numbers;
mod octets;
mod reader;
mod settings;
mod whole;
mod words;

pub use addresses::{address, ipv4};
pub use ends::without_last;
pub use head::{Head, read_head};
pub use laws::{head_spelled, lines_spelled, script_spelled};
pub use numbers::count;
pub use octets::{octets_exactly, octets_up_to};
pub use reader::{Found, LineBuffer, Reader};
pub use settings::{SettingsFault, SettingsOctets, SettingsText};
pub use whole::{TEXT_LIMIT, TextFault, read_text};
pub use words::{first_word, is_end};
