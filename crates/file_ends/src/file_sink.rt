//! A file, standard output or standard error as a sink.

ghost use Rattle.std.specs.Prelude.{◌≡◌, None, IfOk};

use crate::file_id::{FileId, file_id};
use savi_ends::{Put, Sink, send};
use std::fs::{File, Files};
use std::io::{self, Stderr, Stdout};

/// What takes the octets.
#[derive(Drop)]
enum Target {
    File(Output),
    Out(Stdout),
    Err(Stderr),
}

/// A file that is written, and which one it is, where it is a regular one. It still holds what it did before it was opened
/// where `is_old`.
#[derive(Drop)]
struct Output {
    file: File,
    id: Option<FileId>,
    is_old: bool,
}

impl Output {
    ghost use Rattle.std.specs.Prelude.{true};

    // Empties the file where it still holds what it did, and then writes a piece.
    fn write(&mut self, piece: &[u8]) -> Put
        ensures file { self.new.id ≡ self.old.id }
        ensures touched { self.new.is_old ≡ true → (self.old.is_old ≡ true) × (result ≡ Put.Failed) }
    {
        if self.is_old {
            if self.file.set_len(0).is_err() {
                return Put::Failed;
            }
            self.is_old = false;
        }
        send(&mut self.file, piece)
    }
}

impl Target {
    ghost use Rattle.std.specs.Prelude.{true};
    ghost use Rattle.file_ends.specs.Ends.{target_file, is_old_target};

    // Writes a piece.
    fn write(&mut self, piece: &[u8]) -> Put
        ensures file { target_file self.new ≡ target_file self.old }
        ensures touched { is_old_target self.new ≡ true → (is_old_target self.old ≡ true) × (result ≡ Put.Failed) }
    {
        match self {
            Target::File(output) => output.write(piece),
            Target::Out(out) => send(out, piece),
            Target::Err(err) => send(err, piece),
        }
    }
}

/// A sink that writes each piece at once. It tells nothing of what was written.
#[derive(Drop)]
pub struct FileSink {
    target: Target,
    faults: u64,
}

impl FileSink {
    ghost use Rattle.std.specs.Prelude.{is_some, true, OnErr};
    ghost use Rattle.file_ends.specs.Ends.{sink_file, is_untouched};

    /// Opens the file of this name, or makes it. What it holds stays until the first write, or until it is emptied.
    pub fn open<R: Files<File = File>>(rt: &R, name: &str) -> io::Result<FileSink>
        ensures fresh { IfOk result (λ s. s.faults ≡ 0) }
        ensures untouched { IfOk result (λ s. is_untouched s ≡ is_some (sink_file s)) }
    {
        let file = File::options().write(true).create(true).open(rt, name)?;
        let id = file_id(&file)?;
        let is_old = id.is_some();
        Ok(FileSink {
            target: Target::File(Output { file, id, is_old }),
            faults: 0,
        })
    }

    /// Which file it is; `None` where it isn't a regular one.
    pub fn id(&self) -> Option<FileId>
        ensures { result ≡ sink_file self.now }
    {
        match &self.target {
            Target::File(output) => output.id,
            Target::Out(_) | Target::Err(_) => None,
        }
    }

    /// Whether it is a regular file to which nothing was written since it was opened, and which holds what it did.
    pub fn is_as_it_was(&self) -> bool
        ensures { result ≡ is_untouched self.now }
    {
        match &self.target {
            Target::File(output) => output.is_old,
            Target::Out(_) | Target::Err(_) => false,
        }
    }

    /// Empties a file to which nothing was written since it was opened.
    pub fn empty(&self) -> io::Result<()>
        ensures { OnErr result (is_untouched self.now ≡ true) }
    {
        match &self.target {
            Target::File(output) => {
                if output.is_old {
                    output.file.set_len(0)?;
                }
                Ok(())
            }
            Target::Out(_) | Target::Err(_) => Ok(()),
        }
    }

    /// Standard output.
    pub fn out(out: Stdout) -> FileSink
        ensures { result.faults ≡ 0 }
    {
        FileSink {
            target: Target::Out(out),
            faults: 0,
        }
    }

    /// Standard error.
    pub fn err(err: Stderr) -> FileSink
        ensures { result.faults ≡ 0 }
    {
        FileSink {
            target: Target::Err(err),
            faults: 0,
        }
    }
}

impl Sink for FileSink {
    ghost use Rattle.std.specs.Prelude.{◌≤◌, true};
    ghost use Rattle.savi_ends.specs.Faults.{Rose};
    ghost use Rattle.savi_ends.specs.Writes.{Extends};
    ghost use Rattle.file_ends.specs.Ends.{sink_file, is_untouched};

    ghost written = { λ s. None };

    ghost faults = { λ s. s.faults };

    fn faults(&self) -> u64 {
        self.faults
    }

    fn write(&mut self, piece: &[u8]) -> Put
        ensures extends { Extends result None None piece.now }
        ensures later { self.old.faults ≤ self.new.faults }
        ensures cause { result ≡ Put.Failed → Rose self.old.faults self.new.faults }
        ensures still { result ≡ Put.Done → self.new.faults ≡ self.old.faults }

        // It stays the same file, and is as it was only where the write failed.
        ensures file { sink_file self.new ≡ sink_file self.old }
        ensures touched { is_untouched self.new ≡ true → (is_untouched self.old ≡ true) × (result ≡ Put.Failed) }
    {
        let put = self.target.write(piece);
        if put == Put::Failed {
            self.faults = self.faults.saturating_add(1);
        }
        put
    }
}
