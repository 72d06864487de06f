// The options of a message.

ghost use Rattle.std.specs.Prelude.{◌≡◌, ◌↔◌, List, IsTrue, MatchResult};
ghost use Rattle.nd_read.specs.Options.{NdOption, AreOptions, HasKind};

use crate::message::NdFault;

/// The unit of an option's length (RFC 4861 section 4.6), in octets.
const UNIT: usize = 8;

/// Type of the option that names the source's link-layer address (RFC 4861 section 4.6.1).
const SOURCE_LINK_LAYER_ADDRESS: u8 = 1;

/// Whether an option names the source's link-layer address, where the octets are whole options one
/// behind the other. O(n).
pub fn names_source(octets: &[u8]) -> Result<bool, NdFault>
    ensures { MatchResult result
        (λ found. (options : List NdOption)
        × AreOptions octets.now options × (IsTrue found ↔ HasKind 1 options))
        (λ fault. (fault ≡ NdFault.Options)
        × ((options : List NdOption) → ¬ AreOptions octets.now options)) }
{
    let mut found = false;
    let mut rest = octets;
    'option: while let [kind, units, ..] = rest {
        let len = UNIT * usize::from(*units);
        if len == 0 || rest.len() < len {
            return Err(NdFault::Options);
        }
        found = found || *kind == SOURCE_LINK_LAYER_ADDRESS;
        rest = &rest[len..];
    }
    if rest.is_empty() {
        Ok(found)
    } else {
        Err(NdFault::Options)
    }
}
