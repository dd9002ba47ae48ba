//! What a controller shows of itself, and the page of it.
ghost use Rattle.std.specs.Prelude.{◌≡◌, ◌≤◌, ◌+◌, ◌++◌, length};
ghost use Rattle.pef_core.specs.Shown.{log_lines, work_lines, job_text as job_text_of, script_line as script_line_of, closed_word as closed_word_of, pending_line as pending_line_of, page as page_of};

use crate::controller::Controller;
use crate::item::Item;
use crate::replying::{id_or, timer_octet};
use crate::summary::Summary;
use pef_engine::{Entry, Machine, Script};
use report_line::{LineBuilder, ReportLine};

impl Controller {
    ghost use Rattle.std.specs.Prelude.{◌≡◌, ℕ, List, length, min};
    ghost use Rattle.pef_core.specs.Shown.{job_id, summary, shown_page};
    ghost use Rattle.pef_core.specs.View.{ShowsController};

    /// How the controller stands.
    pub fn show(&self) -> Summary
        ensures { (Z : List ℕ) (H : List (Entry Item)) → ShowsController self.now Z H → result ≡ summary Z H }
    {
        Summary {
            records: self.log.len() as u16,
            processed: self.processed_count(),
            last: id_or(0x0000, self.processed()),
            job: self.job(),
            status: self.status,
            ticks: self.ticks,
            delay: self.delay,
            postpone: timer_octet(self.postpone),
            sequence: self.sequence,
            pending: self.next().is_some(),
        }
    }

    /// How the controller stands and what script was opened last, in a line each.
    pub fn page(&self) -> ReportLine
        ensures { (Z : List ℕ) (H : List (Entry Item)) → ShowsController self.now Z H → result ≡ shown_page Z H }
    {
        page_of(&self.show(), self.script)
    }

    // How many records are processed. The mark stands within the log.
    fn processed_count(&self) -> u16
        ensures { result ≡ min self.now.mark (length self.now.log) }
    {
        self.mark.min(self.log.len()) as u16
    }

    // The ID of the record whose job runs.
    fn job(&self) -> Option<u16>
        ensures { result ≡ job_id self.now.running }
    {
        match &self.running {
            Some(running) if running.is_job() => Some(running.id()),
            _ => None,
        }
    }
}

fn page_of(summary: &Summary, script: Option<Script>) -> ReportLine
    ensures { result ≡ page_of summary.now script }
{
    let line = put_log(LineBuilder::new(), summary);
    let line = put_work(line, summary);
    let line = put_script(line, script);
    put_pending(line, summary.pending).end()
}

fn put_log(line: LineBuilder, summary: &Summary) -> LineBuilder
    requires { length line ≤ 100 }
    ensures added { result ≡ line ++ log_lines summary.now }
    ensures long { length result ≤ length line + 60 }
{
    line.text(b"records ")
        .decimal(u32::from(summary.records))
        .text(b"\nprocessed ")
        .decimal(u32::from(summary.processed))
        .text(b"\nlast ")
        .hexadecimal(&summary.last.to_be_bytes())
}

fn put_work(line: LineBuilder, summary: &Summary) -> LineBuilder
    requires { length line ≤ 200 }
    ensures added { result ≡ line ++ work_lines summary.now }
    ensures long { length result ≤ length line + 120 }
{
    put_job(line.text(b"\njob "), summary.job)
        .text(b"\nimmediate ")
        .hexadecimal(&[summary.status])
        .text(b"\nticks ")
        .decimal(summary.ticks)
        .text(b"\ndelay ")
        .decimal(u32::from(summary.delay))
        .text(b"\npostpone ")
        .decimal(u32::from(summary.postpone))
        .text(b"\nsequence ")
        .decimal(u32::from(summary.sequence))
}

fn put_job(line: LineBuilder, job: Option<u16>) -> LineBuilder
    requires { length line ≤ 300 }
    ensures added { result ≡ line ++ job_text_of job }
    ensures long { length result ≤ length line + 4 }
{
    match job {
        Some(id) => line.hexadecimal(&id.to_be_bytes()),
        None => line.text(b"none"),
    }
}

fn put_script(line: LineBuilder, script: Option<Script>) -> LineBuilder
    requires { length line ≤ 400 }
    ensures added { result ≡ line ++ script_line_of script }
    ensures long { length result ≤ length line + 60 }
{
    let Some(script) = script else {
        return line.text(b"\nscript none");
    };
    line.text(b"\nscript ")
        .hexadecimal(&script.id.to_be_bytes())
        .text(b" ")
        .decimal(script.count)
        .text(b" ")
        .decimal(script.taken)
        .text(closed_word(script.closed))
}

fn closed_word(closed: bool) -> &'static [u8]
    ensures word { result.now ≡ closed_word_of closed }
    ensures long { length result.now ≤ 7 }
{
    if closed { b" closed" } else { b" open" }
}

fn put_pending(line: LineBuilder, pending: bool) -> LineBuilder
    requires { length line ≤ 500 }
    ensures { result ≡ line ++ pending_line_of pending }
{
    if pending {
        line.text(b"\npending yes")
    } else {
        line.text(b"\npending no")
    }
}
