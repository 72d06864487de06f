//! The audit of a journal: DHCPv4 snooping and ARP inspection over the frames that passed (`v4_snoop`), while the journal is
//! checked (`journal_check`).
//!
//! `audit` checks a journal as `check` does, with the same answer, and its `Auditor` writes a line for each frame that is
//! reported, in the order of the entries. The contracts say that the lines and the counts are plain functions of the
//! history in front of the first fault (`specs/Violations.antt`, `specs/PassedFrames.antt`), and what a sink took of the
//! lines where a write failed. No memory is taken but where the check begins.
#![tactic(auto)]

mod auditing;
mod auditor;
mod inner_kind;
mod line;
mod passed_port;
mod printer;

pub use auditing::audit;
pub use auditor::Auditor;
pub use printer::{PIECE_OCTETS, Printer};
