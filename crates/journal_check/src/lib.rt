//! Checks the journal of a switch: whether a text is the journal of a whole session that a switch may have, and if not,
//! where the first fault is.
//!
//! A journal is read in one pass. Its header gives the plan, and a switch of that plan enters each event again: an entry
//! stands where it is the one that the switch makes. Where a segment ends for a next one, the switch goes on, and the
//! lines of what it goes on from are those that it gives. So a journal tells what happened without trust in who wrote it.
//! All memory is taken before the first entry is judged, that of one segment; nothing is taken for an entry or a segment.
#![tactic(auto)]

mod answer;
mod apart;
mod coming;
mod feeds;
mod header;
mod laws;
mod lines;
mod lists;
mod openings;
mod putting;
mod ranges;
mod reading;
mod settings;
mod turns;
mod vlans;
mod watcher;

pub use answer::{Checked, FIELD_OCTETS, FieldText};
pub use laws::{
    a_journal_is_good, a_written_journal_is_good, journals_lack_names,
    legal_numbers_fit_their_fields, octets_have_one_answer, octets_have_one_history,
    what_is_good_is_a_journal,
};
pub use reading::{check, check_with};
pub use watcher::{NoWatcher, Watcher};
