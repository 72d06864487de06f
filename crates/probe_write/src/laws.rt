//! What a probe is to its reader. The function here does nothing: its contract is the law.

ghost use Rattle.std.specs.Prelude.{◌≡◌, ◌^◌, ◌<◌, length};
ghost use Rattle.savi_kinds.specs.Prefixes.{LiesIn, multicast};
ghost use Rattle.savi_kinds.specs.declared.address.Addr.{Addr};
ghost use Rattle.savi_kinds.specs.declared.address.Mac.{Mac};
ghost use Rattle.probe_write.specs.ProbeFrame.{probe_of};
ghost use Rattle.probe_write.specs.ProbeReading.{AsksFor};

/// A probe for an address of 128 bits that is none of a group (outside ff00::/8) is read as a solicitation for duplicate
/// address detection of that address (RFC 4861 section 7.1.1, RFC 4862 section 5.4.2).
pub fn probes_ask_for_their_target()
    ensures { (mac : Mac) (target : Addr) → length mac.0 ≡ 6 → target.0 < 2 ^ 128 → (LiesIn target.0 multicast → ⊥) → AsksFor target (probe_of mac target) }
{}
