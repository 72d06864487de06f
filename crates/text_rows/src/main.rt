//! Texts, commands, what a run says, and loads.
//!
//! The input is lines, of which those that begin with `#` are passed over. Those of the first part say what others go by:
//!
//!     == TEXT                      is printed as it stands: what the lines behind it show
//!     report WRITE                 nothing was said on standard error yet, and this write will fail
//!     history                      a history is empty
//!     end PASS [PORT] END [PLACE]  a pass of the history ends
//!
//! What each of these comes to is printed. In a text `\n`, `\t` and `\s` are a line feed, a tab and a space.
//!
//!     addr TEXT                    the octets of the address, how it is written, and the octets that are read of that
//!     prefix TEXT                  the octets of the prefix, and its length
//!     mac TEXT                     the octets of the MAC address, and how it is written
//!     key TEXT                     the VLAN and the octets of the address, how they are written, and what is read of that
//!     mac_key VLAN TEXT            how the MAC address is written in this VLAN
//!     decimal MOST TEXT            the number, which may be so high
//!     command TEXT                 the command
//!     load SEED PACKETS            the digests of the captures of a load
//!     say WORD NAME                something is said on standard error, of a name, or of a port where that is `#NUMBER`
//!     said                         what was said
//!     ends WRITE                   what is said of the ends of the history, where this write fails
//!     kinds                        which ends the history has, and its summary
//!
//! WRITE is the number, from 1 on, of the write that fails, and 0 is none.
#![tactic(auto)]

mod commands;
mod history;
mod input;
mod loads;
mod report;
mod state;
mod texts;

use state::State;

fn main(rt: HostRuntime) -> anyhow::Result<()> {
    let mut state = State::new(rt.alloc())?;
    for line in rt.lines(rt.alloc()) {
        let line = line?;
        state.follow(&rt, rt.alloc(), line.as_str())?;
    }
    Ok(())
}
