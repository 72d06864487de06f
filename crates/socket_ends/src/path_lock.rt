//! The lock of a path.

use std::alloc::Global;
use std::fs::{self, File, Files, OpenOptions};
use std::io::{self, Error, ErrorKind};
use std::os::unix::fs::{MetadataExt, OpenOptionsExt};

/// How many lock files are tried of which each was removed by its holder between the opening and the lock.
const TRIES: usize = 16;

/// The lock of a path, which one opening at a time has, of this process or another, as long as this lives.
///
/// It is the advisory lock on the empty file `PATH.lock`. Only its holder removes that file, as the last thing it does, and
/// a lock on a file that was removed counts for nothing. A process that is killed leaves the file, and the next one locks
/// it.
pub(crate) struct PathLock<R: Files + Drop> {
    rt: R,
    name: String,
    file: File,
}

impl<R: Files + Drop> PathLock<R> {
    /// Takes the lock of this path, whose file is opened by `files`. `Err` where it is taken, or where another kind of file
    /// has its name.
    pub fn take<F: Files<File = File>>(
        rt: R,
        files: &F,
        alloc: Global,
        path: &str,
    ) -> io::Result<PathLock<R>> {
        let name = format!(in alloc; "{path}.lock")?;
        for _ in 0..TRIES {
            let file = open(files, name.as_str())?;
            file.try_lock()?;
            if is_named(&rt, name.as_str(), &file) {
                return Ok(PathLock { rt, name, file });
            }
        }
        Err(Error::from(ErrorKind::WouldBlock))
    }
}

impl<R: Files + Drop> Drop for PathLock<R> {
    fn drop(self) {
        let PathLock { rt, name, file } = self;
        if is_named(&rt, name.as_str(), &file) {
            let _ = fs::remove_file(&rt, name.as_str());
        }
    }
}

// Opens the lock file of this name, or makes it. Nobody else may open one that is made, so that nobody else locks it.
fn open<F: Files<File = File>>(files: &F, name: &str) -> io::Result<File> {
    let mut how = OpenOptions::new();
    how.read(true).write(true).create(true).mode(0o600);
    how.open(files, name)
}

// Whether the empty file of this name is the open one. A link to it is not.
fn is_named<R: Files>(rt: &R, name: &str, file: &File) -> bool {
    match (file.metadata(), fs::symlink_metadata(rt, name)) {
        (Ok(open), Ok(named)) => {
            let is_empty = open.is_file() && open.len() == 0;
            is_empty && open.dev() == named.dev() && open.ino() == named.ino()
        }
        _ => false,
    }
}
