//! One call of the program on its words.
ghost use Rattle.std.specs.Prelude.{◌≡◌, ◌⊎◌, ℕ, map, string_bytes};
ghost use Rattle.pef_call.specs.declared.form.Form.TheVariants.{Init, InitConsole, Run, Receive, Live, Listen, Show, List};
ghost use Rattle.pef_call.specs.Init.{Inits, making};
ghost use Rattle.pef_call.specs.Kinds.{kinds};
ghost use Rattle.pef_settings.specs.Settings.{controller, settings_of};
ghost use Rattle.console_settings.specs.Settings as console;
ghost use Rattle.report_line.specs.declared.ending.Ending.TheVariants.{Usage};
ghost use Rattle.report_line.specs.Finishing.{Finishes};
ghost use Rattle.feed_run.specs.Top.{FeedCall, around};
ghost use Rattle.pef_call.specs.Top.{IsNoForm, IsOfForm, IsOfLoneForm, IsOfFedForm};
ghost use Rattle.pef_call.specs.Listing.{Lists, controller_page, ledger, sourceless};
ghost use Rattle.pef_call.specs.Receiving.{console_kind, AcksAreKept, AcksAreKeptOver};
ghost use Rattle.pef_core.specs.Histories.{controller_rules};
ghost use Rattle.pef_core.specs.Report.{controller_scripts};
ghost use Rattle.pef_core.specs.View.{view_of};
ghost use Rattle.pef_core.specs.Arriving as controller_feed;
ghost use Rattle.trap_console.specs.Arriving as console_feed;
ghost use Rattle.script_run.specs.Going.{kind};
ghost use Rattle.script_run.specs.Top.{RunCall, outside};

use crate::form::Form;
use crate::initializing::init;
use crate::kinds::KINDS;
use crate::listening::listen_to_traps;
use crate::listing::list;
use crate::receiving::receive;
use crate::running::{listen_to_frames, run_script};
use crate::showing::show;
use crate::words::paths;
use board_core::{Board, Feed, Sink, Source};
use console_settings::ConsoleSettings;
use pef_settings::ControllerSettings;
use report_line::{Ending, finish};
use std::alloc::Global;

/// Does what the words behind the program's name ask for, and answers the status. `board` is the state file of the form, `source` its
/// other file and `feed` what arrives at its address; the report and the last line go to `out`.
pub fn top<B: Board, S: Source, F: Feed, K: Sink>(
    alloc: Global,
    words: &[String],
    board: &mut B,
    source: &mut S,
    feed: &mut F,
    out: &mut K,
) -> u8
    ensures usage { IsNoForm (map string_bytes words.now) → (result ≡ 2) × (board.new ≡ board.old) × (source.new ≡ source.old) × (feed.new ≡ feed.old)
        × Finishes (K.written out.old) (K.written out.new) (K.faults out.old) (K.faults out.new) Usage result }
    ensures is_usage { result ≡ 2 → IsNoForm (map string_bytes words.now) }
    ensures init { IsOfForm Init (map string_bytes words.now) → Inits (making kinds controller settings_of)
        (outside (B.view board.old) (S.left source.old) (S.faults source.old) (K.written out.old) (K.faults out.old))
        (outside (B.view board.new) (S.left source.new) (S.faults source.new) (K.written out.new) (K.faults out.new)) result × (feed.new ≡ feed.old) }
    ensures init_console { IsOfForm InitConsole (map string_bytes words.now) → Inits (making kinds console.console console.settings_of)
        (outside (B.view board.old) (S.left source.old) (S.faults source.old) (K.written out.old) (K.faults out.old))
        (outside (B.view board.new) (S.left source.new) (S.faults source.new) (K.written out.new) (K.faults out.new)) result × (feed.new ≡ feed.old) }
    ensures run { IsOfForm Run (map string_bytes words.now) → RunCall (kind controller_rules view_of controller_scripts)
        (outside (B.view board.old) (S.left source.old) (S.faults source.old) (K.written out.old) (K.faults out.old))
        (outside (B.view board.new) (S.left source.new) (S.faults source.new) (K.written out.new) (K.faults out.new)) result × (feed.new ≡ feed.old) }
    ensures receive { IsOfForm Receive (map string_bytes words.now) → RunCall console_kind
        (outside (B.view board.old) (S.left source.old) (S.faults source.old) (K.written out.old) (K.faults out.old))
        (outside (B.view board.new) (S.left source.new) (S.faults source.new) (K.written out.new) (K.faults out.new)) result × (feed.new ≡ feed.old) }
    ensures acks { IsOfForm Receive (map string_bytes words.now) → AcksAreKept (S.left source.old) (B.view board.old) (B.view board.new) }
    ensures show { IsOfLoneForm Show (map string_bytes words.now) → Lists controller_page (sourceless (B.view board.old) (K.written out.old) (K.faults out.old))
        (sourceless (B.view board.new) (K.written out.new) (K.faults out.new)) result × (source.new ≡ source.old) × (feed.new ≡ feed.old) }
    ensures list { IsOfLoneForm List (map string_bytes words.now) → Lists ledger (sourceless (B.view board.old) (K.written out.old) (K.faults out.old))
        (sourceless (B.view board.new) (K.written out.new) (K.faults out.new)) result × (source.new ≡ source.old) × (feed.new ≡ feed.old) }
    ensures live { (arrivals : ℕ) → IsOfFedForm Live arrivals (map string_bytes words.now) → FeedCall (kind controller_rules view_of controller_scripts) controller_feed.item_at arrivals
        (around (B.view board.old) (F.arrivals feed.old) (F.faults feed.old) (K.written out.old) (K.faults out.old))
        (around (B.view board.new) (F.arrivals feed.new) (F.faults feed.new) (K.written out.new) (K.faults out.new)) result × (source.new ≡ source.old) }
    ensures listen { (arrivals : ℕ) → IsOfFedForm Listen arrivals (map string_bytes words.now) → FeedCall console_kind console_feed.item_at arrivals
        (around (B.view board.old) (F.arrivals feed.old) (F.faults feed.old) (K.written out.old) (K.faults out.old))
        (around (B.view board.new) (F.arrivals feed.new) (F.faults feed.new) (K.written out.new) (K.faults out.new)) result × (source.new ≡ source.old) }
    ensures listen_acks { (arrivals : ℕ) → IsOfFedForm Listen arrivals (map string_bytes words.now) → AcksAreKeptOver (F.arrivals feed.old) (B.view board.old) (B.view board.new) }
{
    let Some(paths) = paths(words) else {
        return finish(out, Ending::Usage);
    };
    match paths.form {
        Form::Init => init::<ControllerSettings, B, S, K>(alloc, &KINDS, board, source, out),
        Form::InitConsole => init::<ConsoleSettings, B, S, K>(alloc, &KINDS, board, source, out),
        Form::Run => run_script(alloc, board, source, out),
        Form::Receive => receive(alloc, board, source, out),
        Form::Live => listen_to_frames(alloc, board, feed, out, paths.arrivals as u32),
        Form::Listen => listen_to_traps(alloc, board, feed, out, paths.arrivals as u32),
        Form::Show => show(alloc, board, out),
        Form::List => list(alloc, board, out),
    }
}
