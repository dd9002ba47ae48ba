//! The settings of a controller's state file: its kind, the keys of the document that gives them, and their layout.
#![tactic(auto)]

mod keys;
mod layout;
mod settings;
mod text;

pub use layout::{
    ACTIONS, AGENT, CONTROL, DELAY, FILTER, KIND, MANUFACTURER, OEM1_PORT, OEM2_PORT, PET_PORT,
    SETTINGS, SYSTEM,
};
pub use text::ControllerSettings;
