//! One call of the program: what its words ask for, done on the objects that stand for its files, its feed and its output.
#![tactic(auto)]

mod arrivals;
mod form;
mod init_fault;
mod initializing;
mod kinds;
mod listening;
mod listing;
mod program;
mod receiving;
mod running;
mod showing;
mod words;

pub use form::{FORMS, Form, Paths};
pub use program::top;
pub use words::paths;
