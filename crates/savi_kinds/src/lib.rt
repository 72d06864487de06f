//! The kinds of thing that an access switch speaks of: ports, VLANs, addresses, rules and verdicts, the
//! plan of a switch and the entries of its history.
//!
//! The types are plain data. Contracts see a `Text` as the list of its octets, and the lists of a
//! plan as lists. The one predicate of a plan that is within the limits, `IsValidPlan` of
//! `specs/ValidPlan.antt`, stands here, since each call that takes a plan needs it.
//!
//! The words for the parts of a plan stand here once (`specs/PlanWords.antt`), for configurations and journals.
//!
//! Addresses, prefixes and MAC addresses are read from texts and written (`specs/AddrText.antt`,
//! `specs/PrefixText.antt`, `specs/MacText.antt`); what the texts come to is in the laws of
//! `text_laws`: what is written is read again, and a text has one value. `read_decimal` reads a number
//! in decimal, for prefixes and for the crates above.
//!
//! An address has meaning within its VLAN: the two together are a key (`specs/KeyText.antt`). The ports of a VLAN are its
//! access ports and the trunks that list it (`specs/Vlans.antt`).
//!
//! Read for the texts: RFC 4291 sections 2.2 and 2.3 (addresses and prefixes), RFC 5952 section 4
//! (the one spelling of an address), RFC 6991 section 3 (MAC addresses). Read for VLANs: IEEE 802.1Q sections 6.9 and 9.
#![tactic(auto)]

mod addr_text;
mod address;
mod arrival;
mod decimal;
mod digit;
mod entry;
mod key_text;
mod limits;
mod mac_text;
mod plan;
mod plan_words;
mod port;
mod prefix_text;
mod text;
mod text_laws;
mod verdict;
mod vlan;
mod vlan_laws;

pub use addr_text::{put_addr, read_addr};
pub use address::{Addr, Mac, Moment, Prefix};
pub use arrival::Next;
pub use decimal::read_decimal;
pub use entry::{Act, Entry, How, Who};
pub use key_text::{KEY_OCTETS, MAC_KEY_OCTETS, put_key, put_mac_key, read_key};
pub use limits::{
    BYTES_MOST, CONTROL_LINE_OCTETS, DEFAULT_VLAN, DEPTH_MOST, ENTRIES_LEAST, ENTRIES_MOST,
    ENTRIES_RESERVED, FRAME_OCTETS_LEAST, FRAME_OCTETS_MOST, FRAME_OCTETS_OUT_MOST, GAP_MOST_MS,
    LAST_MOMENT, LIFE_MOST_S, PER_PORT_MOST, PORTS_MOST, PREFIXES_MOST, TEST_LEAST_MS,
    TEST_MOST_MS, VLAN_MOST, VLANS_MOST,
};
pub use mac_text::{put_mac, read_mac};
pub use plan::{Format, Method, Plan, PortPlan, PortPlans, PrefixPlan, PrefixPlans, Role, Vlan};
pub use plan_words::{savi_word, unknown_word};
pub use port::{Port, PortSet};
pub use prefix_text::read_prefix;
pub use text::Text;
pub use text_laws::{
    a_text_is_of_one_addr, a_text_is_of_one_key, a_text_is_of_one_mac, a_text_is_of_one_prefix,
    addr_texts_are_plain, addr_texts_are_read_again, addr_texts_have_one_spelling,
    key_texts_are_read_again, mac_keys_have_texts_of_their_own, mac_texts_are_read_again,
    prefix_texts_are_read_again,
};
pub use verdict::{Rule, Scope, Verdict};
pub use vlan::{Vlans, add_vlan, vlans_of_ports};
pub use vlan_laws::{plans_have_few_vlans, vlans_of_a_plan_are_those_of_its_ports};
