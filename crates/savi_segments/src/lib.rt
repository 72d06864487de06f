//! Histories in segments: a history that is split at turns, each segment going on from what those before it left, reads as
//! the joined one.
//!
//! A replay (`specs/Replay.antt`) and a live session go on in segments, and a journal has them one behind the other
//! (`specs/Journals.antt`). The definitions of `specs/` speak of whole histories of `savi_history`. Each function does
//! nothing: its contract is the law.
//!
//! Read: RFC 6620 and RFC 7513 (what is told of addresses), IEEE 802.1Q clause 8 (stations).
#![tactic(auto)]

mod journal_laws;
mod laws;
mod replay_laws;

pub use journal_laws::journals_tell_one_history;
pub use laws::{
    a_history_is_read_from_its_turns, a_table_goes_on_from_its_states, counts_sum_segments_up,
    marks_are_joined, segments_keep_who_came_first, segments_leave_what_their_rows_leave,
    segments_pass_where_their_source_is_live,
};
pub use replay_laws::{
    failed_reads_are_of_inputs, failed_writes_are_of_outputs, lines_are_entered,
    no_command_without_control, outputs_fit, replays_are_whole_sessions, replies_fit,
};
