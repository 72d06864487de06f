//! The regular files that a run has open.

ghost use Rattle.std.specs.Prelude.{◌≡◌, false, IfOk, IfErr, OnOk, OnErr};
ghost use Rattle.file_ends.specs.Opened.{nothing_open, is_written, is_open, with_read, with_written, IsApart, IsRefusal, IsReason};
ghost use Rattle.file_ends.specs.Ends.{source_file, sink_file};

use crate::file_id::FileId;
use crate::file_sink::FileSink;
use crate::file_source::FileSource;
use crate::not_opened::NotOpened;
use arrayvec::ArrayVec;
use savi_ends::Source;
use std::alloc::Global;
use std::fs::{File, Files};
use std::marker::Model;

/// How many files are noted at most, of those that are read and of those that are written. A run reads 18, the inputs of 16
/// ports and of control and a configuration, and writes 20, the outputs of 16 ports and of control, a journal, standard output
/// and standard error.
pub const FILES_MOST: usize = 20;

/// Which regular files a run has opened, to be read and to be written. No file is opened to be written that is open already,
/// nor to be read that is open to be written: so that no recording is written over by the run that reads it, whatever names
/// it has.
#[derive(Drop)]
pub struct OpenFiles {
    read: ArrayVec<FileId, FILES_MOST>,
    written: ArrayVec<FileId, FILES_MOST>,
}

impl Model for OpenFiles {
    ghost use Rattle.file_ends.specs.Opened.{Opened, IsApart};

    ghost Value = { Opened };

    ghost view = { λ f. record { read = f.read.items; written = f.written.items } };

    ghost invariant = { λ f. IsApart (record { read = f.read.items; written = f.written.items }) };
}

impl OpenFiles {
    /// The files that are open when a run starts: those that standard output and standard error are sent to.
    pub fn at_start(out: Option<FileId>, err: Option<FileId>) -> OpenFiles
        ensures { result ≡ with_written (with_written nothing_open out) err }
    {
        let mut written = ArrayVec::new();
        if let Some(file) = out {
            written.push(file);
        }
        if let Some(file) = err {
            written.push(file);
        }
        OpenFiles {
            read: ArrayVec::new(),
            written,
        }
    }

    /// Opens the file of this name to be read, and notes it. O(files).
    #[tactic(auto, using(crate::proofs::Reasons::reason_of_refusal))]
    pub fn open_source<R: Files<File = File>>(
        &mut self,
        rt: &R,
        alloc: Global,
        name: &str,
    ) -> Result<FileSource, NotOpened>
        ensures fresh { IfOk result (λ s. ⟦<FileSource as Source>⟧.faults s ≡ 0) }
        ensures free { IfOk result (λ s. is_written self.old (source_file s) ≡ false) }
        ensures noted { IfOk result (λ s. self.new ≡ with_read self.old (source_file s)) }
        ensures refused { IfErr result (IsReason (is_written self.old) self.old.read) }
        ensures same { OnErr result (self.new ≡ self.old) }
    {
        let Ok(source) = FileSource::open(rt, alloc, name) else {
            return Err(NotOpened::Failed);
        };
        self.add_read(source.id())?;
        Ok(source)
    }

    /// Opens the file of this name to be written, or makes it, and notes it. O(files).
    #[tactic(auto, using(crate::proofs::Reasons::reason_of_refusal))]
    pub fn open_sink<R: Files<File = File>>(
        &mut self,
        rt: &R,
        name: &str,
    ) -> Result<FileSink, NotOpened>
        ensures fresh { IfOk result (λ s. s.faults ≡ 0) }
        ensures free { IfOk result (λ s. is_open self.old (sink_file s) ≡ false) }
        ensures noted { IfOk result (λ s. self.new ≡ with_written self.old (sink_file s)) }
        ensures refused { IfErr result (IsReason (is_open self.old) self.old.written) }
        ensures same { OnErr result (self.new ≡ self.old) }
    {
        let Ok(sink) = FileSink::open(rt, name) else {
            return Err(NotOpened::Failed);
        };
        self.add_written(sink.id())?;
        Ok(sink)
    }

    /// Notes a file that was opened to be read, where it is a regular one and isn't open to be written. O(files).
    #[tactic(auto, using(crate::proofs::Apart::apart_with_read))]
    pub fn add_read(&mut self, id: Option<FileId>) -> Result<(), NotOpened>
        ensures free { OnOk result (is_written self.old id ≡ false) }
        ensures noted { OnOk result (self.new ≡ with_read self.old id) }
        ensures refused { IfErr result (IsRefusal (is_written self.old) self.old.read id) }
        ensures same { OnErr result (self.new ≡ self.old) }
    {
        let Some(file) = id else {
            return Ok(());
        };
        if self.written.as_slice().contains(&file) {
            return Err(NotOpened::IsOpen(file));
        }
        if self.read.try_push(file).is_err() {
            return Err(NotOpened::NoRoom);
        }
        Ok(())
    }

    /// Notes a file that was opened to be written, where it is a regular one and isn't open. O(files).
    #[tactic(auto, using(crate::proofs::Apart::apart_with_written))]
    pub fn add_written(&mut self, id: Option<FileId>) -> Result<(), NotOpened>
        ensures free { OnOk result (is_open self.old id ≡ false) }
        ensures noted { OnOk result (self.new ≡ with_written self.old id) }
        ensures refused { IfErr result (IsRefusal (is_open self.old) self.old.written id) }
        ensures same { OnErr result (self.new ≡ self.old) }
    {
        let Some(file) = id else {
            return Ok(());
        };
        if self.read.as_slice().contains(&file) || self.written.as_slice().contains(&file) {
            return Err(NotOpened::IsOpen(file));
        }
        if self.written.try_push(file).is_err() {
            return Err(NotOpened::NoRoom);
        }
        Ok(())
    }
}

/// No file is open both to be read and to be written.
pub fn files_are_apart(files: &OpenFiles)
    ensures { IsApart files.now }
{
    let _read = &files.read;
}
