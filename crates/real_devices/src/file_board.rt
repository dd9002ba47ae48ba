// A state file and its plant as a board.
use crate::failure::{Call, Failure};
use crate::faults::{Faults, counted};
use crate::held_file::HeldFile;
use crate::plant::Plant;
use crate::sender::Sender;
use board_core::{Board, DiskFailed, Step, Told};
use std::net::{Net, UdpSocket};
use std::os::unix::fs::FileExt;

/// A state file that is held and kept open. Actions go to the plant's file beside it, and datagrams out by UDP.
/// It tells nothing of its content.
#[derive(Drop)]
pub struct FileBoard<'a, R> {
    rt: &'a R,
    state: HeldFile,
    plant: Plant,
    sender: Sender,
    disk: Faults,
    issue: Faults,
}

impl<'a, R: Net> FileBoard<'a, R> {
    ghost use Rattle.std.specs.Prelude.{◌≡◌};
    ghost use Rattle.real_devices.specs.Devices.{board_view};

    /// A board over this state file and this plant. Its faults count from 0.
    pub fn new(rt: &'a R, state: HeldFile, plant: Plant) -> FileBoard<'a, R>
        ensures disk_faults { (board_view result).disk_faults ≡ 0 }
        ensures issue_faults { (board_view result).issue_faults ≡ 0 }
    {
        FileBoard {
            rt,
            state,
            plant,
            sender: Sender::new(),
            disk: Faults::new(),
            issue: Faults::new(),
        }
    }

    /// The same, and datagrams go out from this socket, which isn't connected.
    pub fn sending_from(
        rt: &'a R,
        state: HeldFile,
        plant: Plant,
        socket: UdpSocket,
    ) -> FileBoard<'a, R>
        ensures disk_faults { (board_view result).disk_faults ≡ 0 }
        ensures issue_faults { (board_view result).issue_faults ≡ 0 }
    {
        FileBoard {
            rt,
            state,
            plant,
            sender: Sender::over(socket),
            disk: Faults::new(),
            issue: Faults::new(),
        }
    }

    /// The first call of the state file that failed.
    pub fn disk_failure(&self) -> Option<Failure>
        ensures { result ≡ self.now.disk.first }
    {
        self.disk.first
    }

    /// The first step that could not be issued.
    pub fn issue_failure(&self) -> Option<Failure>
        ensures { result ≡ self.now.issue.first }
    {
        self.issue.first
    }
}

impl<'a, R: Net> Board for FileBoard<'a, R> {
    ghost use Rattle.real_devices.specs.Devices.{board_view, board_sound};

    ghost view = { board_view };

    ghost sound = { board_sound };

    #[tactic(auto, using(crate::proofs::Silence::silent_read))]
    fn len(&mut self) -> Result<u64, DiskFailed> {
        let length = self.state.file.metadata().map(|data| data.len());
        counted(length, Call::Length, &mut self.disk, DiskFailed)
    }

    #[tactic(auto, using(crate::proofs::Silence::silent_read))]
    fn read_at(&mut self, place: u64, into: &mut [u8]) -> Result<(), DiskFailed> {
        let count = into.len();
        counted(
            self.state.file.read_exact_at(into, place),
            Call::ReadAt { place, count },
            &mut self.disk,
            DiskFailed,
        )
    }

    #[tactic(auto, using(crate::proofs::Silence::silent_write))]
    fn write_at(&mut self, place: u64, from: &[u8]) -> Result<(), DiskFailed> {
        let count = from.len();
        counted(
            self.state.file.write_all_at(from, place),
            Call::WriteAt { place, count },
            &mut self.disk,
            DiskFailed,
        )
    }

    #[tactic(auto, using(crate::proofs::Silence::silent_sync))]
    fn sync(&mut self) -> Result<(), DiskFailed> {
        counted(
            self.state.file.sync_all(),
            Call::Sync,
            &mut self.disk,
            DiskFailed,
        )
    }

    #[tactic(auto, using(crate::proofs::Silence::silent_issue))]
    fn issue(&mut self, step: &Step) -> Told {
        let (call, issued) = match step {
            Step::Act { kind, id } => (Call::Act, self.plant.act(*kind, *id)),
            Step::Datagram { to, octets } => (Call::Send, self.sender.send(self.rt, to, octets)),
        };
        match counted(issued, call, &mut self.issue, ()) {
            Ok(()) => Told::Done,
            Err(()) => Told::Failed,
        }
    }
}

#[cfg(test)]
mod tests;
