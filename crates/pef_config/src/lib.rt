//! The PEF configuration parameters: event filters, alert policies and strings, and what governs them (IPMI 2.0, section 30.3).
#![tactic(auto)]

mod config;
mod initial;
mod parameter;
mod policies;
mod reading;
mod strings;
mod writing;

pub use config::Config;
pub use initial::Initial;
