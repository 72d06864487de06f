// What a message of DHCPv6 makes of the addresses in it.

ghost use Rattle.std.specs.Prelude.{◌≡◌};
ghost use Rattle.access_table.specs.Events.{change_event};

use dhcp6_read::Lease;
use fcfs_states::Ev;
use savi_kinds::Port;

/// What a message of DHCPv6 makes of the addresses in it (RFC 7513 section 6).
#[derive(Clone, Copy, PartialEq, Eq, Debug)]
pub enum Change {
    /// The host at this port gives them up, by a Release or a Decline.
    Released(Port),
    /// They are leased to the host at this port, by a Reply.
    Leased(Port),
}

impl Change {
    /// The event on an address in the message.
    pub fn event(self, lease: Lease) -> Ev
        ensures { result ≡ change_event self lease }
    {
        match self {
            Change::Released(port) => Ev::Release(port),
            Change::Leased(port) => Ev::Lease {
                p: port,
                valid: lease.valid,
            },
        }
    }
}
