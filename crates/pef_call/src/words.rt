//! The words of a command line.
ghost use Rattle.std.specs.Prelude.{◌≡◌, ◌<◌, ◌≤◌, map, option_map, length, string_bytes, IfSome};
ghost use Rattle.pef_call.specs.Words.{paths_of, one_file, two_files, form_named, lone_form_named, fed_form_named, fed_paths, arrivals_of};
ghost use Rattle.script_text.specs.Forms.{address_of};

use crate::arrivals::arrivals_in;
use crate::form::{Form, Paths};
use script_text::address;

/// What the words behind the program's name ask for: None exactly where they are no form.
pub fn paths(words: &[String]) -> Option<Paths>
    ensures form { result ≡ paths_of (map string_bytes words.now) }
    ensures within { IfSome result (λ paths. (paths.state < length words.now) × (paths.second < length words.now)) }
    ensures limit { IfSome result (λ paths. paths.arrivals ≤ 1000000000) }
{
    match words {
        [word, _] => lone_paths(word.as_str()),
        [word, _, _] => two_paths(word.as_str()),
        [word, _, at, number] => fed_paths(word.as_str(), at.as_str(), number.as_str()),
        _ => None,
    }
}

// What two words ask for, of which this is the first.
fn lone_paths(word: &str) -> Option<Paths>
    ensures form { result ≡ option_map one_file (lone_form_named word.now) }
    ensures places { IfSome result (λ paths. (paths.state ≡ 1) × (paths.second ≤ 2) × (paths.arrivals ≤ 1000000000)) }
{
    Some(Paths {
        form: lone_form_of(word)?,
        state: 1,
        second: 0,
        arrivals: 0,
    })
}

// What three words ask for, of which this is the first.
fn two_paths(word: &str) -> Option<Paths>
    ensures form { result ≡ option_map two_files (form_named word.now) }
    ensures places { IfSome result (λ paths. (paths.state ≡ 1) × (paths.second ≤ 2) × (paths.arrivals ≤ 1000000000)) }
{
    Some(Paths {
        form: form_of(word)?,
        state: 1,
        second: 2,
        arrivals: 0,
    })
}

// What four words ask for, of which these are the first and the last two.
fn fed_paths(word: &str, at: &str, number: &str) -> Option<Paths>
    ensures form { result ≡ fed_paths (fed_form_named word.now) (address_of at.now) (arrivals_of number.now) }
    ensures places { IfSome result (λ paths. (paths.state ≡ 1) × (paths.second ≤ 2) × (paths.arrivals ≤ 1000000000)) }
{
    let form = fed_form_of(word)?;
    let _ = address(at.as_bytes())?;
    Some(Paths {
        form,
        state: 1,
        second: 2,
        arrivals: arrivals_in(number)?,
    })
}

fn lone_form_of(word: &str) -> Option<Form>
    ensures { result ≡ lone_form_named word.now }
{
    match word {
        "show" => Some(Form::Show),
        "list" => Some(Form::List),
        _ => None,
    }
}

fn fed_form_of(word: &str) -> Option<Form>
    ensures { result ≡ fed_form_named word.now }
{
    match word {
        "live" => Some(Form::Live),
        "listen" => Some(Form::Listen),
        _ => None,
    }
}

fn form_of(word: &str) -> Option<Form>
    ensures { result ≡ form_named word.now }
{
    match word {
        "init" => Some(Form::Init),
        "init-console" => Some(Form::InitConsole),
        "run" => Some(Form::Run),
        "receive" => Some(Form::Receive),
        _ => None,
    }
}
