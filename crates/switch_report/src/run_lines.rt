//! The lines of standard error that a run has to say itself.

ghost use Rattle.std.specs.Prelude.{◌≡◌, ◌≤◌, ◌<◌, ◌+◌, ◌++◌, ◌∷◌, [], IfSome, IfNone, codes, decimal, length};
ghost use Rattle.arrayvec.specs.ArrayVec.{array_vec_len};
ghost use Rattle.savi_conf.specs.declared.fault.ConfFault.{ConfFault};
ghost use Rattle.savi_ends.specs.Faults.{Rose};
ghost use Rattle.savi_ends.specs.Writes.{Extends};
ghost use Rattle.savi_kinds.specs.Ports.{number_of};
ghost use Rattle.switch_report.specs.RunLines.{cannot_open_line, config_line, malformed_line, memory_line, port_name as name_of_port, read_failed_line, usage_line, write_failed_line};

use arrayvec::{ArrayString, ArrayVec};
use itoa::Buffer;
use savi_conf::ConfFault;
use savi_ends::{Put, Sink};
use savi_kinds::Port;

// The octets of a line that is written at once. Only one with a name that is longer than a screen's line is longer.
const LINE_OCTETS: usize = 256;

// The most octets of what is said behind a name of a malformed input: 15, a number of at most 20 digits and the line feed.
const MALFORMED_OCTETS: usize = 36;

const USAGE: &str =
    "usage: savi_switch replay FILE, serve FILE, check FILE, gen SEED FRAMES, split FILE, learn FILE MS, audit FILE\n";

/// The name that stands for a port in a line, as `port 7`.
pub fn port_name(port: Port) -> ArrayString<8>
    ensures { result.bytes ≡ name_of_port (number_of port) }
{
    let mut digits = Buffer::new();
    let mut name = ArrayString::new();
    name.push_str("port ");
    name.push_str(digits.format(port.get()));
    name
}

/// Writes that there is no memory.
///
/// The write has failed where the answer says so, as at the sink's own `write`. This holds of the other lines too.
pub fn tell_memory<K: Sink>(sink: &mut K) -> Put
    ensures extends { Extends result (K.written sink.old) (K.written sink.new) memory_line }
    ensures later { K.faults sink.old ≤ K.faults sink.new }
    ensures cause { result ≡ Put.Failed → Rose (K.faults sink.old) (K.faults sink.new) }
    ensures still { result ≡ Put.Done → K.faults sink.new ≡ K.faults sink.old }
{
    write_line(sink, "out of memory", "", "\n")
}

/// Writes the forms of the command line.
pub fn tell_usage<K: Sink>(sink: &mut K) -> Put
    ensures extends { Extends result (K.written sink.old) (K.written sink.new) usage_line }
    ensures later { K.faults sink.old ≤ K.faults sink.new }
    ensures cause { result ≡ Put.Failed → Rose (K.faults sink.old) (K.faults sink.new) }
    ensures still { result ≡ Put.Done → K.faults sink.new ≡ K.faults sink.old }
{
    sink.write(USAGE.as_bytes())
}

/// Writes why a configuration gives no plan.
pub fn tell_config<K: Sink>(sink: &mut K, fault: ConfFault) -> Put
    ensures extends { Extends result (K.written sink.old) (K.written sink.new) (config_line fault) }
    ensures later { K.faults sink.old ≤ K.faults sink.new }
    ensures cause { result ≡ Put.Failed → Rose (K.faults sink.old) (K.faults sink.new) }
    ensures still { result ≡ Put.Done → K.faults sink.new ≡ K.faults sink.old }
{
    match fault {
        ConfFault::NoMemory => tell_memory(sink),
        ConfFault::NotToml => sink.write(b"config is not TOML\n"),
        ConfFault::Bad(number) => {
            let mut digits = Buffer::new();
            write_line(sink, "config fault ", digits.format(number), "\n")
        }
    }
}

/// Writes that what has this name couldn't be opened: a file, a port or the journal.
pub fn tell_unopened<K: Sink>(sink: &mut K, name: &str) -> Put
    ensures extends { Extends result (K.written sink.old) (K.written sink.new) (cannot_open_line name.now) }
    ensures later { K.faults sink.old ≤ K.faults sink.new }
    ensures cause { result ≡ Put.Failed → Rose (K.faults sink.old) (K.faults sink.new) }
    ensures still { result ≡ Put.Done → K.faults sink.new ≡ K.faults sink.old }
{
    write_line(sink, "cannot open ", name, "\n")
}

/// Writes that a read of what has this name failed.
pub fn tell_unread<K: Sink>(sink: &mut K, name: &str) -> Put
    ensures extends { Extends result (K.written sink.old) (K.written sink.new) (read_failed_line name.now) }
    ensures later { K.faults sink.old ≤ K.faults sink.new }
    ensures cause { result ≡ Put.Failed → Rose (K.faults sink.old) (K.faults sink.new) }
    ensures still { result ≡ Put.Done → K.faults sink.new ≡ K.faults sink.old }
{
    write_line(sink, "", name, ": read failed\n")
}

/// Writes that a write of what has this name failed.
pub fn tell_unwritten<K: Sink>(sink: &mut K, name: &str) -> Put
    ensures extends { Extends result (K.written sink.old) (K.written sink.new) (write_failed_line name.now) }
    ensures later { K.faults sink.old ≤ K.faults sink.new }
    ensures cause { result ≡ Put.Failed → Rose (K.faults sink.old) (K.faults sink.new) }
    ensures still { result ≡ Put.Done → K.faults sink.new ≡ K.faults sink.old }
{
    write_line(sink, "", name, ": write failed\n")
}

/// Writes that what has this name is malformed at this place (octets from its start).
pub fn tell_malformed<K: Sink>(sink: &mut K, name: &str, at: u64) -> Put
    ensures extends { Extends result (K.written sink.old) (K.written sink.new) (malformed_line name.now at) }
    ensures later { K.faults sink.old ≤ K.faults sink.new }
    ensures cause { result ≡ Put.Failed → Rose (K.faults sink.old) (K.faults sink.new) }
    ensures still { result ≡ Put.Done → K.faults sink.new ≡ K.faults sink.old }
{
    write_line(sink, "", name, malformed_text(at).as_str())
}

// What is said behind the name of what is malformed at this place.
fn malformed_text(at: u64) -> ArrayString<MALFORMED_OCTETS>
    ensures { result.bytes ≡ codes ": malformed at " ++ (decimal at ++ 10 ∷ []) }
{
    let mut digits = Buffer::new();
    let mut text = ArrayString::new();
    text.push_str(": malformed at ");
    text.push_str(digits.format(at));
    text.push_str("\n");
    text
}

// Writes a line whose name has this before it and that after it, at once where it is short.
fn write_line<K: Sink>(sink: &mut K, before: &str, name: &str, after: &str) -> Put
    ensures extends { Extends result (K.written sink.old) (K.written sink.new) (before.now ++ (name.now ++ after.now)) }
    ensures later { K.faults sink.old ≤ K.faults sink.new }
    ensures cause { result ≡ Put.Failed → Rose (K.faults sink.old) (K.faults sink.new) }
    ensures still { result ≡ Put.Done → K.faults sink.new ≡ K.faults sink.old }
{
    if let Some(line) = short_line(before, name, after) {
        return sink.write(line.as_slice());
    }
    match sink.write(before.as_bytes()) {
        Put::Done => write_both(sink, name, after),
        Put::Failed => Put::Failed,
    }
}

// Writes one text and then another.
fn write_both<K: Sink>(sink: &mut K, first: &str, second: &str) -> Put
    ensures extends { Extends result (K.written sink.old) (K.written sink.new) (first.now ++ second.now) }
    ensures later { K.faults sink.old ≤ K.faults sink.new }
    ensures cause { result ≡ Put.Failed → Rose (K.faults sink.old) (K.faults sink.new) }
    ensures still { result ≡ Put.Done → K.faults sink.new ≡ K.faults sink.old }
{
    match sink.write(first.as_bytes()) {
        Put::Done => sink.write(second.as_bytes()),
        Put::Failed => Put::Failed,
    }
}

// The line, where it has at most `LINE_OCTETS` octets.
fn short_line(before: &str, name: &str, after: &str) -> Option<ArrayVec<u8, LINE_OCTETS>>
    ensures line { IfSome result (λ line. line.items ≡ before.now ++ (name.now ++ after.now)) }
    ensures long { IfNone result (256 < length before.now + length name.now + length after.now) }
{
    let mut line = ArrayVec::new();
    line.try_extend_from_slice(before.as_bytes()).ok()?;
    line.try_extend_from_slice(name.as_bytes()).ok()?;
    line.try_extend_from_slice(after.as_bytes()).ok()?;
    Some(line)
}
