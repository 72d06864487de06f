//! What is made.

use savi_kinds::Plan;

/// A plan, and the capture that comes in at each of its ports, in the order of the ports.
#[derive(Drop)]
pub struct Load {
    /// Five ports, the hosts at the first three. Nothing stands in files of the names in it.
    pub plan: Plan,
    /// Whole captures (libpcap savefile format), little-endian, with stamps in microseconds.
    pub captures: Vec<Vec<u8>>,
}
