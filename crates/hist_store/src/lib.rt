//! The history of a switch, and its text, the journal.
//!
//! `Hist` keeps the entries in order, each with its octets; contracts see a list of rows (`specs/Rows.antt`). The
//! journal is a text of lines (`specs/JournalTexts.antt`): its header, then segments, each with the lines of what it goes
//! on from, `begin`, a line for each entry and a last line. What `put_header`, `put_begin`, `put_line` and `put_end` write
//! is that text, octet by octet; the lines of what a segment goes on from are for others to write, which know it, by
//! `put_word`, `put_number` and so on, which append a field.
//! `read_line` reads the lines of entries (`specs/EntryLines.antt`), and no others. The lines of the header and those around
//! the entries are read one by one, by `read_version_line`, `read_mac_line`, `read_setting` and so on, which take what is
//! printed, and no other spelling; of a journal of version 1 too. Nothing takes memory but `Hist::make`.
#![tactic(auto)]

mod end_fields;
mod header;
mod hist;
mod journal_line;
mod line;
mod line_laws;
mod pieces;
mod port_fields;
mod read_end;
mod read_fields;
mod read_header;
mod read_hex;
mod read_ports;
mod read_verdict;
mod read_vlans;
mod reading;
mod verdict_fields;
mod version;
mod vlan_fields;

pub use end_fields::{put_how, put_who};
pub use header::{put_begin, put_end, put_header};
pub use hist::Hist;
pub use journal_line::{JOURNAL_LINE_OCTETS, JournalLine, LineFull};
pub use line::put_line;
pub use line_laws::{
    a_line_says_one_entry, a_segment_ends_at_one_line, a_written_line_says_its_entry,
    an_entry_has_one_line,
};
pub use pieces::{put_decimal, put_hex, put_number, put_octets, put_word};
pub use port_fields::{put_port, put_port_field, put_ports};
pub use read_header::{
    is_begin_line, read_mac_line, read_port_line, read_prefix_line, read_savi_line, read_setting,
    read_unknown_line, read_version_line,
};
pub use read_hex::LineOctets;
pub use read_verdict::RULES;
pub use reading::read_line;
pub use verdict_fields::name_of;
pub use version::Version;
