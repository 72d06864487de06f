//! Which file an end is over.

ghost use Rattle.std.specs.Prelude.{◌↔◌, IsSome};
ghost use Rattle.std.specs.Fs.{IsFile, file_type};

use std::fs::{self, File, Files, Metadata};
use std::io;
use std::os::unix::fs::MetadataExt;

/// A regular file, by its device and its number there (`st_dev` and `st_ino` of POSIX), whatever name it was opened by.
#[derive(Clone, Copy, PartialEq, Eq, Debug, Default)]
pub struct FileId {
    device: u64,
    inode: u64,
}

// Where Linux tells what standard output is sent to (proc_pid_fd(5)).
const STANDARD_OUTPUT: &str = "/proc/self/fd/1";

// The same of standard error.
const STANDARD_ERROR: &str = "/proc/self/fd/2";

impl FileId {
    /// The file that standard output is sent to. `None` where it isn't a regular one, or the system doesn't tell.
    pub fn of_standard_output<R: Files>(rt: &R) -> Option<FileId> {
        named_file(rt, STANDARD_OUTPUT)
    }

    /// The file that standard error is sent to. `None` where it isn't a regular one, or the system doesn't tell.
    pub fn of_standard_error<R: Files>(rt: &R) -> Option<FileId> {
        named_file(rt, STANDARD_ERROR)
    }
}

// The file that a name leads to.
fn named_file<R: Files>(rt: &R, name: &str) -> Option<FileId> {
    regular_file(&fs::metadata(rt, name).ok()?)
}

// That of an open file; `None` where it isn't a regular one.
pub(crate) fn file_id(file: &File) -> io::Result<Option<FileId>> {
    Ok(regular_file(&file.metadata()?))
}

// The file of which the system says this, where it is a regular one.
fn regular_file(about: &Metadata) -> Option<FileId>
    ensures { IsSome result ↔ IsFile (file_type about.now) }
{
    if !about.is_file() {
        return None;
    }
    Some(FileId {
        device: about.dev(),
        inode: about.ino(),
    })
}
