//! Why a file isn't opened.

use crate::file_id::FileId;

/// Why a file wasn't opened.
#[derive(Clone, Copy, PartialEq, Eq, Debug)]
pub enum NotOpened {
    /// The system didn't open it.
    Failed,
    /// It is this one, which is open already.
    IsOpen(FileId),
    /// No more files can be noted.
    NoRoom,
}
