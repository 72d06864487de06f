//! The ports and the prefixes of a plan, in rising order.
ghost use Rattle.std.specs.List.Sorted.{IsNonDecreasingBy, IsSortedByKey, IsStrictlyIncreasing};
ghost use Rattle.std.specs.Ordering.{nat_cmp, ordering_then};
ghost use Rattle.std.specs.Prelude.{◌≡◌, ◌≢◌, ◌≤◌, All, AllPairs, IfOk, IsPermutation, length, map, ℕ};
ghost use Rattle.savi_conf.specs.PlanOf.{IsPortOf, IsPrefixOf, Lists, SayInOrder};
ghost use Rattle.savi_conf.specs.Requirements.{AreFewVlans, HasTrunkRole, HaveApartRanges, TellsPlanPrefix, number_in, vlans_in};
ghost use Rattle.savi_conf.specs.Told.{CanSayPort, CanSayPrefix};
ghost use Rattle.savi_kinds.specs.Ports.{number_of};
ghost use Rattle.savi_kinds.specs.Prefixes.{first_of};
ghost use Rattle.savi_kinds.specs.ValidPlan.{HasPlanVlans, IsPlanPrefix, StandsBefore, nets_of, numbers_of};
ghost use Rattle.savi_kinds.specs.Vlans.{IsVlan, vlans_of_ports};
ghost use Rattle.toml.specs.View.{table_view};

use crate::plan::{port_plan, prefix_plan};
use savi_kinds::{PortPlan, PrefixPlan};
use std::alloc::{AllocError, Global};
use toml::Table;

// The ports that the tables say, in rising order of number. O(n log n).
pub(crate) fn port_plans(alloc: Global, tables: &[&Table]) -> Result<Vec<PortPlan>, AllocError>
    requires each { All (λ t. CanSayPort (table_view t.now)) tables.now }
    requires different { AllPairs (λ t u. number_in (table_view t.now) ≢ number_in (table_view u.now)) tables.now }
    requires trusted { All (λ t. HasTrunkRole (table_view t.now)) tables.now }
    requires few { AreFewVlans (map (λ t. vlans_in (table_view t.now)) tables.now) }
    ensures lists { IfOk result (λ v. Lists IsPortOf (map (λ t. table_view t.now) tables.now) v.items) }
    ensures order { IfOk result (λ v. IsStrictlyIncreasing (numbers_of v.items)) }
    ensures vlans { IfOk result (λ v. All HasPlanVlans v.items) }
    ensures few { IfOk result (λ v. length (vlans_of_ports v.items) ≤ 8) }
{
    let mut plans = told_ports(alloc, tables)?;
    sort_ports(&mut plans);
    Ok(plans)
}

fn told_ports(alloc: Global, tables: &[&Table]) -> Result<Vec<PortPlan>, AllocError>
    requires { All (λ t. CanSayPort (table_view t.now)) tables.now }
    ensures { IfOk result (λ v. SayInOrder (λ t p. IsPortOf (table_view t.now) p) tables.now v.items) }
{
    let mut plans = Vec::new(alloc);
    for table in tables {
        plans.push(port_plan(alloc, table)?)?;
    }
    Ok(plans)
}

fn sort_ports(plans: &mut Vec<PortPlan>)
    ensures permutation { IsPermutation plans.old.items plans.new.items }
    ensures order { IsNonDecreasingBy (λ p. number_of p.number) plans.new.items }
{
    plans.sort_unstable_by_key(|plan| plan.number.get());
}

// The prefixes that the tables say, in rising order of VLAN and address. O(n log n).
pub(crate) fn prefix_plans(alloc: Global, tables: &[&Table]) -> Result<Vec<PrefixPlan>, AllocError>
    requires each { All (λ t. CanSayPrefix (table_view t.now)) tables.now }
    requires planned { All (λ t. TellsPlanPrefix (table_view t.now)) tables.now }
    requires apart { AllPairs (λ t u. HaveApartRanges (table_view t.now) (table_view u.now)) tables.now }
    ensures lists { IfOk result (λ v. Lists IsPrefixOf (map (λ t. table_view t.now) tables.now) v.items) }
    ensures planned { IfOk result (λ v. All IsPlanPrefix (nets_of v.items)) }
    ensures vlans { IfOk result (λ v. All (λ p. IsVlan p.vlan) v.items) }
    ensures order { IfOk result (λ v. AllPairs StandsBefore v.items) }
{
    let mut plans = told_prefixes(alloc, tables)?;
    sort_prefixes(&mut plans);
    Ok(plans)
}

fn told_prefixes(alloc: Global, tables: &[&Table]) -> Result<Vec<PrefixPlan>, AllocError>
    requires { All (λ t. CanSayPrefix (table_view t.now)) tables.now }
    ensures { IfOk result (λ v. SayInOrder (λ t p. IsPrefixOf (table_view t.now) p) tables.now v.items) }
{
    let mut plans = Vec::new(alloc);
    for table in tables {
        plans.push(prefix_plan(table))?;
    }
    Ok(plans)
}

fn sort_prefixes(plans: &mut Vec<PrefixPlan>)
    ensures permutation { IsPermutation plans.old.items plans.new.items }
    ensures order { IsSortedByKey {K = ℕ × ℕ} (λ p. (p.vlan, first_of p.prefix)) (λ x y. ordering_then (nat_cmp x.0 y.0) (nat_cmp x.1 y.1)) plans.new.items }
{
    plans.sort_unstable_by_key(|plan| (plan.vlan, plan.prefix.net.0));
}
