//! A file as a source.

ghost use Rattle.std.specs.Prelude.{◌≡◌, None, IfOk};

use crate::file_id::{FileId, file_id};
use savi_ends::{Got, Source, receive};
use std::alloc::Global;
use std::fs::{File, Files};
use std::io::{self, BufReader};

/// How many octets are asked of the file at once.
const PIECE_OCTETS: usize = 65_536;

/// A file that is read in pieces of 64 KiB. It tells nothing of what the file holds.
#[derive(Drop)]
pub struct FileSource {
    reader: BufReader<File>,
    id: Option<FileId>,
    faults: u64,
}

impl FileSource {
    /// Opens the file of this name.
    pub fn open<R: Files<File = File>>(rt: &R, alloc: Global, name: &str) -> io::Result<FileSource>
        ensures { IfOk result (λ s. ⟦<FileSource as Source>⟧.faults s ≡ 0) }
    {
        let file = File::open(rt, name)?;
        let id = file_id(&file)?;
        Ok(FileSource {
            id,
            reader: BufReader::with_capacity(alloc, PIECE_OCTETS, file)?,
            faults: 0,
        })
    }
}

impl FileSource {
    ghost use Rattle.file_ends.specs.Ends.{source_file};

    /// Which file it is; `None` where it isn't a regular one.
    pub fn id(&self) -> Option<FileId>
        ensures { result ≡ source_file self.now }
    {
        self.id
    }
}

impl Source for FileSource {
    ghost left = { λ s. None };

    ghost faults = { λ s. s.faults };

    fn faults(&self) -> u64 {
        self.faults
    }

    fn read(&mut self, buf: &mut [u8]) -> Got {
        let got = receive(&mut self.reader, buf);
        if got == Got::Failed {
            self.faults = self.faults.saturating_add(1);
        }
        got
    }
}
