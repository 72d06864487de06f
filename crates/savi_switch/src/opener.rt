//! What opens the files and sockets of a run.

ghost use Rattle.std.specs.Prelude.{◌≡◌, IfSome, IfNone, IfOk, IfErr, OnErr};
ghost use Rattle.file_ends.specs.Opened.{nothing_open, with_written, is_written, is_open, IsReason};
ghost use Rattle.port_ends.specs.MachineClocks.{began_at, last_of};
ghost use Rattle.savi_switch.specs.Openings.{IsSourceNoted, IsSinkNoted, AreEndsNoted, IsSourceAlone};

use crate::awaiting::Awaiting;
use file_ends::{FileId, FileSink, FileSource, NotOpened, OpenFiles};
use port_ends::{ClockStart, MachineClock, PortSink, PortSource};
use savi_ends::{Ends, Sink, Source};
use socket_ends::{Resting, SocketSink, SocketSource, open_sockets};
use std::alloc::Global;
use std::fs::Files;
use std::net::Net;
use std::sync::{Arc, Wait};

/// A file, or what the peer of a socket sends.
pub type RealSource<R> = PortSource<FileSource, SocketSource<R>>;

/// A file or a standard output, or what is sent to the peer of a socket.
pub type RealSink<R> = PortSink<FileSink, SocketSink<R>>;

/// The ends of a port, or of control.
pub type RealEnds<R> = Ends<RealSource<R>, RealSink<R>, RealClock<R>>;

/// The machine's clock.
pub type RealClock<R> = MachineClock<HostRuntime, R>;

/// Opens files and sockets by name, and knows which files are open. A file that is written holds what it did before until
/// the first octet is written.
#[derive(Drop)]
pub struct Opener<R: Files + Net + Wait + Copy + Drop> {
    host: HostRuntime,
    // what sockets listen, and sockets and clocks wait by
    rt: R,
    alloc: Global,
    // what sockets and clocks look at
    awaiting: Awaiting,
    files: OpenFiles,
    // when the clocks of all ends began
    start: ClockStart,
}

impl<R: Files + Net + Wait + Copy + Drop> Opener<R> {
    /// With no file open but those that standard output and standard error are sent to, where these are regular ones.
    pub fn new(
        host: HostRuntime,
        rt: R,
        alloc: Global,
        awaiting: Awaiting,
        out: Option<FileId>,
        err: Option<FileId>,
    ) -> Opener<R>
        ensures { result.files ≡ with_written (with_written nothing_open out) err }
    {
        let start = awaiting.pauses.start();
        Opener {
            host,
            rt,
            alloc,
            awaiting,
            files: OpenFiles::at_start(out, err),
            start,
        }
    }

    /// A clock of this run, which stands while its inputs wait.
    pub fn clock(&self) -> RealClock<R>
        ensures { last_of result ≡ began_at self.now.start }
    {
        let pauses = Arc::try_clone(&self.awaiting.pauses).ok();
        MachineClock::new(self.host, self.rt, self.start, pauses)
    }

    /// The ends over these two names: sockets, where they are live, of which the sink does so with what a peer doesn't take,
    /// or files. `None` where one can't be opened.
    pub fn ends(&mut self, input: &str, output: &str, live: Option<Resting>) -> Option<RealEnds<R>>
        ensures source { IfSome result (λ ends. ⟦<RealSource<R> as Source>⟧.faults ends.source ≡ 0) }
        ensures sink { IfSome result (λ ends. ⟦<RealSink<R> as Sink>⟧.faults ends.sink ≡ 0) }
        ensures noted { IfSome result (λ ends. AreEndsNoted self.old.files self.new.files ends.source ends.sink) }
        ensures unopened { IfNone result (IsSourceAlone self.old.files self.new.files) }
    {
        let (source, sink) = match live {
            Some(resting) => self.sockets(resting, input, output)?,
            None => self.files(input, output)?,
        };
        Some(Ends {
            source,
            sink,
            clock: self.clock(),
        })
    }

    // The ends over these two files.
    fn files(&mut self, input: &str, output: &str) -> Option<(RealSource<R>, RealSink<R>)>
        ensures source { IfSome result (λ ends. ⟦<RealSource<R> as Source>⟧.faults ends.0 ≡ 0) }
        ensures sink { IfSome result (λ ends. ⟦<RealSink<R> as Sink>⟧.faults ends.1 ≡ 0) }
        ensures noted { IfSome result (λ ends. AreEndsNoted self.old.files self.new.files ends.0 ends.1) }
        ensures unopened { IfNone result (IsSourceAlone self.old.files self.new.files) }
    {
        let source = self.source(input).ok()?;
        let sink = self.sink(output).ok()?;
        Some((source, sink))
    }

    /// The file of this name as a source.
    pub fn source(&mut self, name: &str) -> Result<RealSource<R>, NotOpened>
        ensures fresh { IfOk result (λ source. ⟦<RealSource<R> as Source>⟧.faults source ≡ 0) }
        ensures noted { IfOk result (λ source. IsSourceNoted self.old.files self.new.files source) }
        ensures refused { IfErr result (IsReason (is_written self.old.files) self.old.files.read) }
        ensures same { OnErr result (self.new.files ≡ self.old.files) }
    {
        let source = self.files.open_source(&self.host, self.alloc, name)?;
        Ok(PortSource::File(source))
    }

    /// The file of this name as a sink.
    pub fn sink(&mut self, name: &str) -> Result<RealSink<R>, NotOpened>
        ensures fresh { IfOk result (λ sink. ⟦<RealSink<R> as Sink>⟧.faults sink ≡ 0) }
        ensures noted { IfOk result (λ sink. IsSinkNoted self.old.files self.new.files sink) }
        ensures refused { IfErr result (IsReason (is_open self.old.files) self.old.files.written) }
        ensures same { OnErr result (self.new.files ≡ self.old.files) }
    {
        let sink = self.files.open_sink(&self.host, name)?;
        Ok(PortSink::File(sink))
    }

    // The ends over the sockets at these two paths.
    fn sockets(
        &self,
        resting: Resting,
        input: &str,
        output: &str,
    ) -> Option<(RealSource<R>, RealSink<R>)>
        ensures source { IfSome result (λ ends. ⟦<RealSource<R> as Source>⟧.faults ends.0 ≡ 0) }
        ensures sink { IfSome result (λ ends. ⟦<RealSink<R> as Sink>⟧.faults ends.1 ≡ 0) }
        ensures noted { IfSome result (λ ends. AreEndsNoted self.now.files self.now.files ends.0 ends.1) }
    {
        let opened = open_sockets(
            self.rt,
            &self.host,
            self.alloc,
            &self.awaiting.outputs,
            resting,
            input,
            output,
        );
        let (source, sink) = opened.ok()?;
        Some((PortSource::Socket(source), PortSink::Socket(sink)))
    }
}
