//! The forms of a command line.
ghost use Rattle.std.specs.Prelude.{◌≡◌};
ghost use Rattle.pef_call.specs.Forms.{formats_file};

/// What the program is asked to do, named by its first word.
#[derive(Clone, Copy, Debug, PartialEq, Eq)]
pub enum Form {
    /// `init STATE SETTINGS` formats a controller's state file.
    Init,
    /// `init-console STATE SETTINGS` formats a console's state file.
    InitConsole,
    /// `run STATE SCRIPT` takes the items of a script, behind those taken where it was begun before.
    Run,
    /// `receive STATE CAPTURE` takes the datagrams of a capture, behind those taken where it was begun before.
    Receive,
    /// `live STATE IP:PORT ARRIVALS` takes the frames that arrive at an address, and the seconds that pass, into a controller.
    Live,
    /// `listen STATE IP:PORT ARRIVALS` takes the datagrams that arrive at an address into a console's ledger.
    Listen,
    /// `show STATE` shows what a controller's state file says.
    Show,
    /// `list STATE` shows the rows of a console's ledger.
    List,
}

impl Form {
    /// Whether it formats the state file, and creates it where it is missing.
    pub fn formats(self) -> bool
        ensures { result ≡ formats_file self }
    {
        matches!(self, Form::Init | Form::InitConsole)
    }
}

/// The places of a form's words, from 0, and a number of arrivals. What a form hasn't is 0.
#[derive(Clone, Copy, Debug, PartialEq, Eq)]
pub struct Paths {
    /// The form that the first word names.
    pub form: Form,
    /// The place of the state file's path.
    pub state: usize,
    /// The place of the other path, or of the address: 0 where the form has neither.
    pub second: usize,
    /// The number of arrivals to wait for: 0 where the form has no feed.
    pub arrivals: u64,
}

/// The forms as a person types them, behind the program's name.
pub const FORMS: [&str; 8] = [
    "init STATE SETTINGS",
    "init-console STATE SETTINGS",
    "run STATE SCRIPT",
    "receive STATE CAPTURE",
    "live STATE IP:PORT ARRIVALS",
    "listen STATE IP:PORT ARRIVALS",
    "show STATE",
    "list STATE",
];
