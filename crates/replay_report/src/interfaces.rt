//! The numbers that the interfaces of a domain have in a capture.
ghost use Rattle.std.specs.Prelude.{◌≡◌, ◌≤◌, ◌*◌, length, take, sum_by};
ghost use Rattle.std.specs.List.{AllByRecursion};
ghost use Rattle.wire_base.specs.declared.limits.TheConstants.{MOST_ROUTERS, MOST_ENDS};
ghost use Rattle.wire_base.specs.model.Configuration.{IsSound};
ghost use Rattle.replay_report.specs.Captures as spec;

use wire_base::RouterConf;

/// Returns how many interfaces those routers have.
fn count_interfaces(routers: &[RouterConf]) -> u32
    requires few { length routers.now ≤ MOST_ROUTERS }
    requires sound { AllByRecursion IsSound routers.now }
    ensures count { result ≡ sum_by (λ r. length r.ends) routers.now }
    ensures few { result ≤ MOST_ENDS * MOST_ROUTERS }
{
    let mut count = 0;
    for router in routers {
        count += router.ends.len() as u32;
    }
    count
}

/// Returns the routers before an index.
#[tactic(auto, using(std::proofs::lemmas::List::take_all))]
fn before(routers: &[RouterConf], place: usize) -> &[RouterConf]
    ensures { result.now ≡ take place routers.now }
{
    if place < routers.len() {
        &routers[..place]
    } else {
        routers
    }
}

/// Returns how many interfaces the routers before an index have.
#[tactic(auto, using(crate::proofs::RecordLaws::front_few, crate::proofs::RecordLaws::front_sound))]
pub fn interfaces_before(routers: &[RouterConf], place: usize) -> u32
    requires few { length routers.now ≤ MOST_ROUTERS }
    requires sound { AllByRecursion IsSound routers.now }
    ensures count { result ≡ spec.interfaces_before routers.now place }
    ensures few { result ≤ MOST_ENDS * MOST_ROUTERS }
{
    count_interfaces(before(routers, place))
}
