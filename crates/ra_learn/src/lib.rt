//! Stateful RA-Guard: which ports of a link have routers, and which prefixes these advertise, learned from the frames that
//! come in. The link is VLAN 1 at its access ports (IEEE 802.1Q table 9-2); trunks and ports of other VLANs are passed over.
//!
//! A window begins with the first frame. In it each port that isn't trusted only learns; from its end on a port forwards
//! advertisements where it had good ones in the window, each of prefixes of the link alone, and blocks them elsewhere.
//! `read_ra` reads an advertisement, `Learner` keeps what was learned, and `Report` writes it as text.
//!
//! Contracts see a `Learner` as what it keeps, and say how that stands with all that was seen (`HasLearned` of
//! `specs/Learned.antt`): the states of ports are those of `guard_at`, the entries those of `learned_tables`. Nothing takes
//! memory but `Learner::make` and `Report::make`.
//!
//! RFC 6105 section 3 (stateful RA-Guard); RFC 4861 sections 4.2, 4.6.2 and 6.1.2 (router advertisements).
#![tactic(auto)]

mod advert;
mod carried;
mod coming;
mod guard;
mod laws;
mod learner;
mod lines;
mod link;
mod options;
mod prefixes;
mod reader;
mod report;
mod routers;

pub use advert::{ADVERT_OCTETS_MOST, ADVERT_PREFIXES_MOST, AdvertPrefix, AdvertPrefixes, Ra};
pub use coming::{Coming, learn};
pub use guard::Guard;
pub use laws::{
    adverts_pass_where_they_may, an_advert_has_its_reading, dropped_adverts_tell_nothing,
    tables_stay_within_limits,
};
pub use learner::{Learner, WINDOW_MOST_MS};
pub use prefixes::LINK_PREFIXES_MOST;
pub use reader::read_ra;
pub use report::Report;
pub use routers::ROUTERS_MOST;
