//! The plant's actions as lines of a file.
ghost use Rattle.std.specs.Prelude.{◌≡◌, ◌≢◌, ◌↔◌, false, IsTrue, OnOk};
ghost use Rattle.real_devices.specs.Plant.{action_line};

use crate::file_id::FileId;
use crate::lines::append;
use board_core::{Act, Bytes};
use hex::encode_to_slice;
use std::alloc::Global;
use std::fs::{File, OpenOptions};
use std::os::unix::fs::FileExt;
use std::rt::Files;
use std::{fs, io};

/// The file that actions are appended to.
#[derive(Drop)]
pub struct Plant {
    file: File,
    // its last line has no end
    cut: bool,
}

impl Plant {
    /// Opens the plant's file of a state file, its path with `.plant` behind it, and creates it empty where it is missing.
    pub fn beside<R: Files<File = File>>(rt: &R, alloc: Global, state: &str) -> io::Result<Plant> {
        let path = format!(in alloc; "{state}.plant")?;
        let file = OpenOptions::new()
            .append(true)
            .create(true)
            .open(rt, path.as_str())?;
        let cut = is_cut(rt, path.as_str(), &file)?;
        Ok(Plant { file, cut })
    }

    /// Which file of the system it is.
    pub fn id(&self) -> io::Result<FileId> {
        FileId::of(&self.file)
    }

    /// Appends the action's line in one write. Where the file's last line has no end, this line begins behind one.
    pub fn act(&mut self, kind: Act, id: u16) -> io::Result<()>
        ensures { OnOk result (self.new.cut ≡ false) }
    {
        let line = line_of(kind, id);
        line.fits();
        append(&mut self.file, &mut self.cut, line.as_slice())
    }
}

// True where the file is no empty one and its last octet ends no line. A pipe or a device has no last octet.
fn is_cut<R: Files<File = File>>(rt: &R, path: &str, file: &File) -> io::Result<bool> {
    let data = file.metadata()?;
    let length = data.len();
    if !data.is_file() || length == 0 {
        return Ok(false);
    }
    let mut last = [0; 1];
    fs::open(rt, path)?.read_exact_at(&mut last, length - 1)?;
    Ok(is_within_line(last[0]))
}

// True where a file whose last octet this is ends within a line.
fn is_within_line(last: u8) -> bool
    ensures { IsTrue result ↔ (last ≢ 10) }
{
    last != b'\n'
}

// The action's word, a space, the record's id in four lower-case hexadecimal digits, and 0Ah.
fn line_of(kind: Act, id: u16) -> Bytes<24>
    ensures { result ≡ action_line kind id }
{
    let mut digits = [0u8; 4];
    let _ = encode_to_slice(id.to_be_bytes(), &mut digits);
    let mut line = Bytes::new();
    let _ = line.extend(kind.word());
    let _ = line.extend(b" ".as_slice());
    let _ = line.extend(&digits);
    let _ = line.extend(b"\n".as_slice());
    line
}
