//! On what verdicts depend: on what came in and when, on what was told of an address itself, and on the room of a port. And
//! how many entries a history comes to by what came in, and that a command that is refused changes nothing.
//!
//! The definitions of `specs/` speak of whole histories of `savi_history`. Each function does nothing: its contract is the
//! law.
//!
//! Read: RFC 6620 and RFC 7513 (what is told of addresses), RFC 8074 (methods beside each other).
#![tactic(auto)]

mod laws;

pub use laws::{
    a_budget_always_suffices, a_budget_suffices_for_a_replay, a_budget_suffices_for_one_segment,
    a_frame_fills_no_other_port, a_late_tick_may_change_a_verdict, a_pause_comes_behind_a_step,
    a_refused_command_changes_nothing, an_address_follows_from_its_own_marks,
    ticks_can_be_left_out, verdicts_follow_from_what_came_in,
};
