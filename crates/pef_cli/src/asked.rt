//! What a form's words name.
use pef_call::Form;

/// A form, the names of its files and the address of its feed.
#[derive(Clone, Copy, Debug)]
pub struct Asked<'a> {
    /// The form.
    pub form: Form,
    /// The state file's path.
    pub state: &'a str,
    /// The other file's path, of the settings, of the script or of the capture; or the address of its feed. A form without either has
    /// its own word here.
    pub second: &'a str,
}
