// What the VLANs of a plan are. Each function does nothing: its contract is the law.

ghost use Rattle.std.specs.List.{list_any};
ghost use Rattle.std.specs.List.Sorted.{IsStrictlyIncreasing};
ghost use Rattle.std.specs.Prelude.{◌≡◌, ◌==◌, ◌≤◌, ℕ, length};
ghost use Rattle.savi_kinds.specs.declared.plan.Plan.{Plan};
ghost use Rattle.savi_kinds.specs.ValidPlan.{IsValidPlan};
ghost use Rattle.savi_kinds.specs.Vlans.{is_member_of, vlans_of};

/// Law: the VLANs of a plan are those that have a port, in rising order, each once.
pub fn vlans_of_a_plan_are_those_of_its_ports()
    ensures rising { (plan : Plan) → IsStrictlyIncreasing (vlans_of plan) }
    ensures members { (plan : Plan) (v : ℕ) → list_any (λ n. n == v) (vlans_of plan) ≡ list_any (is_member_of v) plan.ports }
{}

/// Law: a plan that is within the limits has 1 to 8 VLANs.
pub fn plans_have_few_vlans()
    ensures least { (plan : Plan) → IsValidPlan plan → 1 ≤ length (vlans_of plan) }
    ensures most { (plan : Plan) → IsValidPlan plan → length (vlans_of plan) ≤ 8 }
{}
