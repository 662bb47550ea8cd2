//! The rules on whole routers.
ghost use Rattle.std.specs.Prelude.{◌≡◌, codes, IfOk};
ghost use Rattle.std.specs.List.{AllByRecursion};
ghost use Rattle.domain_conf.specs.Reading.{Gives};
ghost use Rattle.domain_conf.specs.Fields.{place_path};
ghost use Rattle.domain_conf.specs.Assembled as spec;

use crate::fault::ConfFault;
use std::alloc::Global;
use wire_base::limits::{MOST_ENDS, MOST_SUB_OCTETS};
use wire_base::{M, Octets, RouterConf};

fn router_path(alloc: Global, place: usize) -> M<Octets>
    ensures { IfOk result (λ path. path ≡ place_path (codes "router") place) }
{
    let text = format!(in alloc; "router[{place}]")?;
    Octets::from_slice(alloc, text.as_bytes())
}

fn is_too_large(router: &RouterConf) -> bool
    requires { spec.HasFewSubs router.now }
    ensures { result ≡ spec.is_too_large router.now }
{
    router.ends.len() > MOST_ENDS || router.sub_octets() > MOST_SUB_OCTETS
}

/// Checks that no router has more than 64 links, or more sub-domains than fit its own LSP.
#[tactic(auto, unfolding(crate::specs::Assembled::within_limits))]
pub fn within_limits(alloc: Global, routers: &[RouterConf]) -> Result<(), ConfFault>
    requires { AllByRecursion spec.HasFewSubs routers.now }
    ensures { Gives (λ _. tt) result (spec.within_limits 0 routers.now) }
{
    for (place, router) in routers.iter().enumerate() {
        if is_too_large(router) {
            return Err(ConfFault::Limit(router_path(alloc, place)?));
        }
    }
    Ok(())
}
