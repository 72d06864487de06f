//! Writing the probes of a switch: `probe` gives the frame of a neighbor solicitation for duplicate
//! address detection. The contract gives its octets (`specs/ProbeFrame.antt`), and the law
//! `probes_ask_for_their_target` says that its message is read as such a solicitation for the same target.
//!
//! RFC 4861 section 4.3, RFC 4862 section 5.4.2, RFC 4291 section 2.7.1, RFC 2464 sections 3 and 7.
#![tactic(auto)]

mod frame;
mod laws;
mod solicitation;

pub use frame::{PROBE_LEN, probe};
pub use laws::probes_ask_for_their_target;
