//! Which file of the system a handle is of.
use std::fs::File;
use std::io;
use std::os::unix::fs::MetadataExt;

/// A file of the system, whatever its name: links of both kinds lead to the same one.
#[derive(Clone, Copy, Debug, PartialEq, Eq)]
pub struct FileId {
    device: u64,
    inode: u64,
}

impl FileId {
    /// The file that is open here.
    pub fn of(file: &File) -> io::Result<FileId> {
        let data = file.metadata()?;
        Ok(FileId {
            device: data.dev(),
            inode: data.ino(),
        })
    }
}
