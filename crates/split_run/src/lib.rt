//! A capture of several interfaces (pcapng), by its name, split over a world of inputs and outputs (`savi_ends`).
//!
//! `split_file` opens the capture, and an output `FILE.K.pcap` for each of the interfaces from 0 to 15 that is Ethernet, as
//! its description is met (`pcap_split`). `specs/Runs.antt` says what each output holds then, by what came of the capture:
//! where it was read to its end, or up to a block that is malformed, the whole classic capture of the interface, and else that
//! of what was read until the work stopped, which ends within a record or the header only where a write of it failed.
//! `put_counts` is the line of what was counted.
#![tactic(auto)]

mod counts_line;
mod keeping;
mod names;
mod opening;
mod outcome;
mod splitting;

pub use counts_line::{COUNTS_LINE_OCTETS, CountsLine, put_counts};
pub use names::{OUTPUTS_MOST, output_names};
pub use outcome::Outcome;
pub use splitting::split_file;
