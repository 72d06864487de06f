// What frames come to. Each function does nothing: its contract is the law.

ghost use Rattle.std.specs.Prelude.{◌≡◌, ◌≢◌, ℕ, ◌≤◌, ◌^◌, ◌↔◌, ◌++◌, true, false, Some, None, IsSomeAnd, List};
ghost use Rattle.savi_kinds.specs.Ports.{number_of};
ghost use Rattle.savi_kinds.specs.declared.port.Port.{Port};
ghost use Rattle.savi_kinds.specs.declared.plan.Role.TheVariants.{Trusted};
ghost use Rattle.savi_kinds.specs.declared.plan.Method.{Method};
ghost use Rattle.savi_kinds.specs.declared.plan.Plan.{Plan};
ghost use Rattle.savi_kinds.specs.declared.plan.Vlan.TheVariants.{Access};
ghost use Rattle.savi_kinds.specs.Vlans.{vlan_among};
ghost use Rattle.savi_kinds.specs.ValidPlan.{IsValidPlan};
ghost use Rattle.eth_frame.specs.declared.header.Eth.{Eth};
ghost use Rattle.v6_chain.specs.declared.packet.Ip.{Ip};
ghost use Rattle.hex.specs.Hex.{IsBytes};
ghost use Rattle.frame_class.specs.ClassOf.{class_of};
ghost use Rattle.frame_class.specs.declared.classes.Class.{Class};
ghost use Rattle.frame_class.specs.declared.classes.Class.TheVariants.{Ip6};
ghost use Rattle.frame_class.specs.declared.classes.Read.{Read};
ghost use Rattle.ra_guard.specs.GuardOf.{guard_of};
ghost use Rattle.dhcp_states.specs.Limits.{IsWithinLimits};
ghost use Rattle.fcfs_states.specs.States.{Same};
ghost use Rattle.mix_rules.specs.declared.state.AddrState.{AddrState};
ghost use Rattle.mix_rules.specs.States.{IsLiveAt};
ghost use Rattle.mix_rules.specs.Next.{IsPass};
ghost use Rattle.savi_kinds.specs.Orders.{AreInTurn};
ghost use Rattle.savi_access.specs.Bases.{AreTables};
ghost use Rattle.savi_access.specs.NamedMarks.{named_moment};
ghost use Rattle.savi_access.specs.States.{IsLiveAfter};
ghost use Rattle.savi_access.specs.FirstCome.{IsKeptOn};
ghost use Rattle.savi_access.specs.Rules.{AccessRules, AccessBase, HasHostPorts, IsAccessBase, nothing_yet};
ghost use Rattle.savi_access.specs.Marks.{Mark, told, newest_moment, open_requests, base_at};
ghost use Rattle.savi_access.specs.Frames.{AreLifetimes};
ghost use Rattle.savi_access.specs.Legal.{AreMarks, HasFront};
ghost use Rattle.savi_access.specs.Judged.{judged, judged_without};
ghost use Rattle.savi_access.specs.VlanMarks.{in_vlan, IsSameIn};
ghost use Rattle.savi_access.specs.Cases.{IsCase, MeetsOneCase};
ghost use Rattle.savi_access.specs.Access.{LivesAt, IsIpv6, HasAccess};
ghost use Rattle.savi_access.specs.Plans.{rules_of, has_port};
ghost use Rattle.fcfs_states.specs.Premises.{AreTimes};

use crate::address_laws::states_stay_a_base;

/// A packet at a port of a host or a server that isn't shut passes exactly where no rule on messages stops it and its source
/// is live at the port, or a named exception permits it. The port is of the packet's VLAN, and `::` isn't on-link.
pub fn a_packet_passes_where_its_source_is_live()
    ensures { (r : AccessRules) (base : AccessBase) (vlan : ℕ) (port : Port) (t : ℕ) (past : List Mark) (class : Class)
        → IsAccessBase r base → AreMarks r base past → newest_moment base past ≤ t → t ≤ 2 ^ 62
        → r.validates ≡ true → r.role_of (number_of port) ≢ Trusted → r.addresses.vlan_of (number_of port) ≡ Some vlan
        → r.addresses.method_of vlan 0 ≡ None → IsIpv6 class
        → (IsPass (Some (judged r base vlan port t past class).verdict) ↔ HasAccess r base vlan port t past false class) }
{}

/// An address lives where `AddrState::live` of `mix_rules` answers that it is live.
pub fn an_address_lives_where_it_is_live()
    ensures { (state : AddrState) (port : Port) → (LivesAt state port ↔ IsLiveAt state port) }
{}

/// First come, first served, for frames. An address that was live at a port, after `early` at t0, and from which a packet
/// now passes at another one, after `late` too, was lost by one of three causes: its host's silence for as long as a test
/// takes, the operator, or the end of a binding by DHCP there.
pub fn frames_keep_who_came_first()
    ensures { (r : AccessRules) (base : AccessBase) (vlan : ℕ) (p q : Port) (from t0 t : ℕ) (early late : List Mark)
        (eth : Eth) (ip : Ip) (read : Read) (m : Method)
        → IsAccessBase r base → AreMarks r base (late ++ early) → newest_moment base (late ++ early) ≤ t → t ≤ 2 ^ 62
        → r.validates ≡ true → r.role_of (number_of q) ≢ Trusted → r.addresses.vlan_of (number_of q) ≡ Some vlan
        → r.addresses.method_of vlan 0 ≡ None → r.addresses.method_of vlan ip.src.0 ≡ Some m
        → AreInTurn named_moment from t0 (told early) → AreInTurn named_moment t0 t (told late)
        → IsLiveAfter r.addresses base.addresses (told early) t0 vlan ip.src.0 p → ¬ Same q p
        → IsPass (Some (judged r base vlan q t (late ++ early) (Ip6 eth ip read)).verdict)
        → IsKeptOn r.addresses base.addresses m (told early) t0 (told late) t vlan ip.src.0 p }
{}

/// Each frame comes to the case that it meets, with its verdict, its scope, all that it tells and the probe that it causes.
/// The cases are stated by what stands in its packet, and by the states of addresses. Each event of a frame has a row with a
/// verdict.
pub fn a_frame_comes_to_its_case()
    ensures { (r : AccessRules) (base : AccessBase) (vlan : ℕ) (port : Port) (t : ℕ) (past : List Mark) (class : Class)
        → AreTimes r.addresses.times → AreTables base.addresses
        → IsCase r base vlan port t past class (judged r base vlan port t past class) }
{}

/// Two cases of one frame are the same: the cases leave nothing open.
pub fn a_frame_meets_one_case()
    ensures { (r : AccessRules) (base : AccessBase) (vlan : ℕ) (port : Port) (t : ℕ) (past : List Mark) (class : Class)
        → AreTimes r.addresses.times → AreTables base.addresses
        → MeetsOneCase r base vlan port t past class }
{}

/// The rules of a valid plan are such as the other laws want: its start is within the limits, each of its ports whose
/// sources are validated is an access port and of that VLAN, and `::` isn't on-link.
pub fn a_valid_plan_has_rules()
    ensures start { (plan : Plan) → IsValidPlan plan → IsAccessBase (rules_of plan) nothing_yet }
    ensures ports { (plan : Plan) (number : ℕ)
        → IsValidPlan plan → has_port plan number ≡ true → (rules_of plan).role_of number ≢ Trusted
        → IsSomeAnd ((rules_of plan).addresses.vlan_of number) (λ vlan. vlan_among plan.ports number ≡ Some (Access vlan)) }
    ensures unspecified { (plan : Plan) (vlan : ℕ) → IsValidPlan plan → (rules_of plan).addresses.method_of vlan 0 ≡ None }
{}

/// The states and the open requests at a moment, from the last mark on, are within the limits as the base was: each request
/// is open, and at a port of its VLAN. So is the start of a switch.
pub fn states_and_requests_stay_a_base()
    ensures start { (r : AccessRules) → AreTimes r.addresses.times → HasHostPorts r → IsAccessBase r nothing_yet }
    ensures kept { (r : AccessRules) (base : AccessBase) (past : List Mark) (t : ℕ)
        → IsAccessBase r base → AreMarks r base past → newest_moment base past ≤ t → t ≤ 2 ^ 62
        → IsAccessBase r (base_at r base past t) }
{
    states_stay_a_base();
}

/// What a frame tells may come after what was told before, where the lifetimes in it are numbers of 32 bits. It is of the
/// frame's moment, in front of what was told before, which stays.
pub fn frames_keep_the_marks()
    ensures { (r : AccessRules) (base : AccessBase) (vlan : ℕ) (port : Port) (t : ℕ) (past : List Mark) (class : Class)
        → IsAccessBase r base → AreMarks r base past → newest_moment base past ≤ t → t ≤ 2 ^ 62 → AreLifetimes class
        → (r.role_of (number_of port) ≢ Trusted → r.addresses.vlan_of (number_of port) ≡ Some vlan)
        → AreMarks r base (judged r base vlan port t past class).marks
        × (newest_moment base (judged r base vlan port t past class).marks ≤ t)
        × HasFront t past (judged r base vlan port t past class).marks }
{}

/// The valid lifetimes in a frame of octets are numbers of 32 bits.
pub fn lifetimes_are_of_32_bits()
    ensures { (frame : List ℕ) → IsBytes frame → AreLifetimes (class_of frame) }
{}

/// In each VLAN no port has more than 16 open requests, and no two open requests have the same transaction id and DUID.
pub fn requests_stay_within_limits()
    ensures { (r : AccessRules) (base : AccessBase) (vlan t : ℕ) (past : List Mark)
        → IsAccessBase r base → AreMarks r base past → newest_moment base past ≤ t
        → IsWithinLimits (open_requests base vlan past t) }
{}

/// At a trusted port each frame passes that no rule on its length or its Ethernet header stops.
pub fn trusted_ports_are_not_validated()
    ensures { (r : AccessRules) (base : AccessBase) (vlan : ℕ) (port : Port) (t : ℕ) (past : List Mark) (class : Class)
        → r.role_of (number_of port) ≡ Trusted → guard_of (r.role_of (number_of port)) r.drop_unknown class ≡ None
        → IsPass (Some (judged r base vlan port t past class).verdict) }
{}

/// What a frame in a VLAN comes to follows from the marks of that VLAN: its verdict, its probe, and what it tells there.
pub fn a_frame_reads_its_own_vlan()
    ensures { (r : AccessRules) (base : AccessBase) (vlan : ℕ) (port : Port) (t : ℕ) (past other : List Mark) (class : Class)
        → in_vlan vlan past ≡ in_vlan vlan other
        → IsSameIn vlan (judged r base vlan port t past class) (judged r base vlan port t other class) }
{}

/// A frame in a VLAN leaves the marks of every other VLAN as they are.
pub fn a_frame_leaves_other_vlans()
    ensures { (r : AccessRules) (base : AccessBase) (vlan other : ℕ) (port : Port) (t : ℕ) (past : List Mark) (class : Class)
        → vlan ≢ other → in_vlan other (judged r base vlan port t past class).marks ≡ in_vlan other past }
{}

/// Where sources aren't validated the rules on messages alone decide, and nothing is told.
pub fn without_validation_the_guard_decides()
    ensures { (r : AccessRules) (base : AccessBase) (vlan : ℕ) (port : Port) (t : ℕ) (past : List Mark) (class : Class)
        → r.validates ≡ false
        → judged r base vlan port t past class
        ≡ judged_without past (guard_of (r.role_of (number_of port)) r.drop_unknown class) }
{}
