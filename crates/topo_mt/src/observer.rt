//! The router from which a topology is seen.
ghost use Rattle.std.specs.Prelude.{◌≡◌, [], IfOk};
ghost use Rattle.wire_base.specs.model.Configuration.{IsSound};
ghost use Rattle.topo_mt.specs.Observer.{mpls_kinds, observer};

use std::alloc::Global;
use wire_base::{Ipv4, Kind, Level, M, Name, Octets, RouterConf, Rows, SubKind, SystemId};

/// The system ID of the observer, which no router has (ISO/IEC 10589, 7.1.3).
pub(crate) const OBSERVER: SystemId = SystemId([0; 6]);

/// Returns the kinds of all sub-domains: MPLS.
#[tactic(auto, using(crate::proofs::ObserverLaws::kinds_more), unfolding(crate::specs::Observer::mpls_kinds))]
fn mpls_kinds(alloc: Global) -> M<Rows<SubKind>>
    ensures { IfOk result (λ kinds. kinds ≡ mpls_kinds 256) }
{
    let mut kinds = Rows::new(alloc);
    'kinds: for sd in 0..256_u16 {
        kinds.push(SubKind {
            sd: sd as u8,
            kind: Kind::Mpls,
        })?;
    }
    Ok(kinds)
}

#[tactic(auto, unfolding(crate::specs::Observer::observer))]
fn built(alloc: Global) -> M<RouterConf>
    ensures { IfOk result (λ c. c ≡ observer) }
{
    Ok(RouterConf {
        level: Level::One,
        area: Octets::from_slice(alloc, &[0x49])?,
        name: Name::from_slice(alloc, b"O")?,
        system: OBSERVER,
        prefix: Ipv4([127, 0, 0, 1]),
        overload: false,
        subs: Rows::new(alloc),
        away: Rows::new(alloc),
        past: Rows::new(alloc),
        kinds: mpls_kinds(alloc)?,
        table: Rows::new(alloc),
        ends: Rows::new(alloc),
    })
}

/// Returns the configuration of the observer: no interfaces, a member of no sub-domain, and every sub-domain known, with the MPLS
/// encapsulation.
#[tactic(auto, using(crate::proofs::ObserverLaws::observer_sound))]
pub(crate) fn observer(alloc: Global) -> M<RouterConf>
    ensures sound { IfOk result (λ c. IsSound c) }
    ensures conf { IfOk result (λ c. c ≡ observer) }
    ensures ends { IfOk result (λ c. c.ends ≡ []) }
{
    built(alloc)
}
