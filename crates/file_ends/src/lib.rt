//! Files as ends of the switch: a file that is read as a source; a file, standard output or standard error as a sink; and
//! which files a run has open.
//!
//! What a file holds is outside of every contract, so such an end tells nothing of its octets. That its
//! failures are counted is proved, and that no file is opened to be written which is open already, nor to be read which is
//! open to be written: by what the system tells of a file, its device and its number there.
#![tactic(auto)]

mod file_id;
mod file_sink;
mod file_source;
mod not_opened;
mod open_files;

pub use file_id::FileId;
pub use file_sink::FileSink;
pub use file_source::FileSource;
pub use not_opened::NotOpened;
pub use open_files::{FILES_MOST, OpenFiles, files_are_apart};
