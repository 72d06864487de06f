ghost use Rattle.std.specs.Prelude.{◌≡◌, ◌^◌, ◌<◌, ◌∷◌, ◌++◌, ℕ, List, [], IsSomeAnd, Option, Some, None, IfSome, IfNone, decimal};
ghost use Rattle.savi_kinds.specs.declared.port.Port.{Port};
ghost use Rattle.savi_kinds.specs.declared.port.PortSet.{PortSet};
ghost use Rattle.savi_kinds.specs.Characters.{space};
ghost use Rattle.hist_store.specs.Rows.{Row};
ghost use Rattle.hist_store.specs.TextOfLines.{spaced};
ghost use Rattle.hist_store.specs.PortTexts.{port_text, members_text};
ghost use Rattle.hist_store.specs.EntryLines.{SaysEntry, SaysAct, entry_without_outs};

use crate::read_end::{is_reason_of, read_how, take_who};
use crate::read_fields::{
    cut_field, is_word, read_number, take_count, take_field, take_number, take_port,
};
use crate::read_hex::{LineOctets, take_hex};
use crate::read_ports::take_ports;
use crate::read_verdict::take_verdict;
use savi_kinds::{
    Act, CONTROL_LINE_OCTETS, Entry, FRAME_OCTETS_MOST, Moment, Port, PortSet, Verdict,
};

/// Reads the journal's line of an entry, without its line feed: the entry's number, and the entry. The octets of a
/// frame or a command are put into the buffer, in place of what it held; a line doesn't say where they are kept, and
/// `at` is 0.
///
/// `None` exactly where the line isn't that of an entry, and then the buffer is empty. O(n).
pub fn read_line(line: &[u8], octets: &mut LineOctets) -> Option<(u64, Entry)>
    ensures read { IfSome result (λ r. SaysEntry line.now r.0 (record { entry = r.1; octets = octets.new.items })) }
    ensures whole { (n : ℕ) (row : Row) → SaysEntry line.now n row
        → (result ≡ Some (n, row.entry)) × (octets.new.items ≡ row.octets) }
    ensures only { IfNone result ((n : ℕ) (row : Row) → ¬ SaysEntry line.now n row) }
    ensures empty { IfNone result (octets.new.items ≡ []) }
{
    octets.clear();
    let read = read_entry(line, octets);
    if read.is_none() {
        octets.clear();
    }
    read
}

// The same for an empty buffer. Where the line isn't that of an entry the buffer holds anything.
fn read_entry(line: &[u8], octets: &mut LineOctets) -> Option<(u64, Entry)>
    requires { octets.old.items ≡ [] }
    ensures read { IfSome result (λ r. SaysEntry line.now r.0 (record { entry = r.1; octets = octets.new.items })) }
    ensures whole { (n : ℕ) (row : Row) → SaysEntry line.now n row
        → (result ≡ Some (n, row.entry)) × (octets.new.items ≡ row.octets) }
{
    let (number, rest) = cut_field(line);
    let n = read_number(number)?;
    let (by, rest) = take_count(rest)?;
    let (moment, rest) = take_number(rest)?;
    let entry = read_act(by, moment, rest, octets)?;
    Some((n, entry))
}

// An entry of this pass and moment, by the fields of its act.
fn read_act(by: u32, moment: Moment, text: &[u8], octets: &mut LineOctets) -> Option<Entry>
    requires { octets.old.items ≡ [] }
    ensures read { IfSome result (λ e. SaysAct text.now by moment (record { entry = e; octets = octets.new.items })) }
    ensures whole { (row : Row) → SaysAct text.now by moment row
        → (result ≡ Some row.entry) × (octets.new.items ≡ row.octets) }
{
    let (letter, rest) = take_field(text)?;
    if is_word(letter, "F") {
        read_frame(by, moment, rest, octets)
    } else if is_word(letter, "D") {
        read_drain(by, moment, rest)
    } else if is_word(letter, "E") {
        read_end(by, moment, rest)
    } else if is_word(letter, "T") {
        read_tick(by, moment, rest)
    } else if is_word(letter, "C") {
        read_command(by, moment, rest, octets)
    } else if is_word(letter, "L") {
        read_long(by, moment, rest)
    } else {
        None
    }
}

fn read_frame(by: u32, moment: Moment, text: &[u8], octets: &mut LineOctets) -> Option<Entry>
    requires { octets.old.items ≡ [] }
    ensures read { IfSome result (λ e. SaysAct (space ∷ 70 ∷ text.now) by moment (record { entry = e; octets = octets.new.items })) }
    ensures whole { (row : Row) → SaysAct (space ∷ 70 ∷ text.now) by moment row
        → (result ≡ Some row.entry) × (octets.new.items ≡ row.octets) }
{
    let (port, stamp, rest) = take_input(text)?;
    let rest = take_hex(rest, FRAME_OCTETS_MOST, octets)?;
    let (verdict, rest) = take_verdict(rest)?;
    let (outs, cuts, rest) = take_outs(rest)?;
    let (probes, lost) = read_probes(rest)?;
    let len = octets.len() as u32;
    Some(Entry {
        by,
        moment,
        act: Act::Frame {
            port,
            stamp,
            at: 0,
            len,
        },
        verdict: Some(verdict),
        outs,
        cuts,
        probes,
        lost,
    })
}

fn read_long(by: u32, moment: Moment, text: &[u8]) -> Option<Entry>
    ensures read { IfSome result (λ e. SaysAct (space ∷ 76 ∷ text.now) by moment (record { entry = e; octets = [] })) }
    ensures whole { (row : Row) → SaysAct (space ∷ 76 ∷ text.now) by moment row
        → (result ≡ Some row.entry) × ([] ≡ row.octets) }
{
    let (port, stamp, rest) = take_input(text)?;
    let (len, rest) = take_count(rest)?;
    let (verdict, rest) = take_verdict(rest)?;
    let (probes, lost) = read_probes(rest)?;
    let act = Act::Long { port, stamp, len };
    Some(entry_of(by, moment, act, Some(verdict), probes, lost))
}

fn read_tick(by: u32, moment: Moment, text: &[u8]) -> Option<Entry>
    ensures read { IfSome result (λ e. SaysAct (space ∷ 84 ∷ text.now) by moment (record { entry = e; octets = [] })) }
    ensures whole { (row : Row) → SaysAct (space ∷ 84 ∷ text.now) by moment row
        → (result ≡ Some row.entry) × ([] ≡ row.octets) }
{
    let (stamp, rest) = take_number(text)?;
    let (probes, lost) = read_probes(rest)?;
    let act = Act::Tick { stamp };
    Some(entry_of(by, moment, act, None, probes, lost))
}

fn read_command(by: u32, moment: Moment, text: &[u8], octets: &mut LineOctets) -> Option<Entry>
    requires { octets.old.items ≡ [] }
    ensures read { IfSome result (λ e. SaysAct (space ∷ 67 ∷ text.now) by moment (record { entry = e; octets = octets.new.items })) }
    ensures whole { (row : Row) → SaysAct (space ∷ 67 ∷ text.now) by moment row
        → (result ≡ Some row.entry) × (octets.new.items ≡ row.octets) }
{
    let (stamp, rest) = take_number(text)?;
    let rest = take_hex(rest, CONTROL_LINE_OCTETS, octets)?;
    let (probes, lost) = read_probes(rest)?;
    let len = octets.len() as u32;
    let act = Act::Command { stamp, at: 0, len };
    Some(entry_of(by, moment, act, None, probes, lost))
}

fn read_drain(by: u32, moment: Moment, text: &[u8]) -> Option<Entry>
    ensures read { IfSome result (λ e. SaysAct (space ∷ 68 ∷ text.now) by moment (record { entry = e; octets = [] })) }
    ensures whole { (row : Row) → SaysAct (space ∷ 68 ∷ text.now) by moment row
        → (result ≡ Some row.entry) × ([] ≡ row.octets) }
{
    let (port, rest) = take_port(text)?;
    let (count, rest) = take_count(rest)?;
    if rest.is_empty() {
        let act = Act::Drain { port, count };
        Some(entry_of(by, moment, act, None, 0, 0))
    } else {
        None
    }
}

fn read_end(by: u32, moment: Moment, text: &[u8]) -> Option<Entry>
    ensures read { IfSome result (λ e. SaysAct (space ∷ 69 ∷ text.now) by moment (record { entry = e; octets = [] })) }
    ensures whole { (row : Row) → SaysAct (space ∷ 69 ∷ text.now) by moment row
        → (result ≡ Some row.entry) × ([] ≡ row.octets) }
{
    let (who, rest) = take_who(text)?;
    let how = read_how(rest)?;
    if is_reason_of(who, how) {
        let act = Act::End { who, how };
        Some(entry_of(by, moment, act, None, 0, 0))
    } else {
        None
    }
}

// A port and a stamp as the first fields.
fn take_input(text: &[u8]) -> Option<(Port, u64, &[u8])>
    ensures read { IfSome result (λ r. (text.now ≡ space ∷ port_text r.0 ++ space ∷ decimal r.1 ++ r.2.now) × (r.1 < 2 ^ 64)) }
    ensures whole { (port : Port) (stamp : ℕ) (fields : List (List ℕ)) → stamp < 2 ^ 64
        → text.now ≡ spaced (port_text port ∷ decimal stamp ∷ fields)
        → IsSomeAnd result (λ r. (r.0 ≡ port) × (r.1 ≡ stamp) × (r.2.now ≡ spaced fields)) }
{
    let (port, rest) = take_port(text)?;
    let (stamp, rest) = take_number(rest)?;
    Some((port, stamp, rest))
}

// The ports to which a frame was queued or would have been, and those with a full queue, as the first fields.
fn take_outs(text: &[u8]) -> Option<(PortSet, PortSet, &[u8])>
    ensures read { IfSome result (λ r. (text.now ≡ space ∷ members_text r.0 ++ space ∷ members_text r.1 ++ r.2.now) × (r.0.0 < 2 ^ 16) × (r.1.0 < 2 ^ 16)) }
    ensures whole { (outs cuts : PortSet) (fields : List (List ℕ)) → outs.0 < 2 ^ 16 → cuts.0 < 2 ^ 16
        → text.now ≡ spaced (members_text outs ∷ members_text cuts ∷ fields)
        → IsSomeAnd result (λ r. (r.0 ≡ outs) × (r.1 ≡ cuts) × (r.2.now ≡ spaced fields)) }
{
    let (outs, rest) = take_ports(text)?;
    let (cuts, rest) = take_ports(rest)?;
    Some((outs, cuts, rest))
}

// How many probes were queued and how many left out, which is all of the text.
fn read_probes(text: &[u8]) -> Option<(u32, u32)>
    ensures read { IfSome result (λ r. (text.now ≡ spaced (decimal r.0 ∷ decimal r.1 ∷ []))
        × (r.0 < 2 ^ 32) × (r.1 < 2 ^ 32)) }
    ensures whole { (probes lost : ℕ) → probes < 2 ^ 32 → lost < 2 ^ 32
        → text.now ≡ spaced (decimal probes ∷ decimal lost ∷ []) → result ≡ Some (probes, lost) }
{
    let (probes, rest) = take_count(text)?;
    let (lost, rest) = take_count(rest)?;
    if rest.is_empty() {
        Some((probes, lost))
    } else {
        None
    }
}

// An entry without outs.
fn entry_of(
    by: u32,
    moment: Moment,
    act: Act,
    verdict: Option<Verdict>,
    probes: u32,
    lost: u32,
) -> Entry
    ensures { result ≡ entry_without_outs by moment act verdict probes lost }
{
    Entry {
        by,
        moment,
        act,
        verdict,
        outs: PortSet::empty(),
        cuts: PortSet::empty(),
        probes,
        lost,
    }
}
