//! The guard as a function, and by the octets of a frame. Each function does nothing: its contract is the law.

ghost use Rattle.std.specs.Prelude.{◌≡◌, Bool, Option};
ghost use Rattle.savi_kinds.specs.declared.plan.Role.{Role};
ghost use Rattle.savi_kinds.specs.declared.verdict.Rule.{Rule};
ghost use Rattle.frame_class.specs.declared.classes.Class.{Class};
ghost use Rattle.ra_guard.specs.Guard.{Applies, IsFirst};
ghost use Rattle.ra_guard.specs.GuardOf.{guard_of};
ghost use Rattle.ra_guard.specs.Refused.{GuardStops, IsAdvertFrame, IsHiddenFrame};

/// A frame whose header chain shows an ICMPv6 message of type 134, with a source in fe80::/10 and hop limit 255, passes no
/// port of a host or a server: a rule up to `RouterAdvert` stops it (RFC 6105, RFC 7113).
pub fn adverts_are_refused()
    ensures { GuardStops IsAdvertFrame 9 }
{}

/// A first fragment whose header chain is cut passes no port of a host or a server: a rule up to `HiddenUpper` stops it
/// (RFC 7112 section 5).
pub fn hidden_fragments_are_refused()
    ensures { GuardStops IsHiddenFrame 7 }
{}

/// A frame of each class has one rule or none that stops it at a port of each role, and `guard_of` computes it.
pub fn a_class_has_its_rule()
    ensures first { (role : Role) (drop_unknown : Bool) (class : Class) → IsFirst (Applies role drop_unknown class) (guard_of role drop_unknown class) }
    ensures only { (role : Role) (drop_unknown : Bool) (class : Class) (other : Option Rule) → IsFirst (Applies role drop_unknown class) other → other ≡ guard_of role drop_unknown class }
{}
