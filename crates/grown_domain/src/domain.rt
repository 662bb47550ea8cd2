//! The generated domain.
ghost use Rattle.std.specs.Prelude.{◌≡◌, ◌≤◌, ℕ, Ok, IfOk};
ghost use Rattle.wire_base.specs.declared.conf.Level.TheVariants.{Two};
ghost use Rattle.wire_base.specs.declared.limits.TheConstants.{MOST_ROUTERS};
ghost use Rattle.domain_conf.specs.Assembled.{domain_from};
ghost use Rattle.grown_domain.specs.Domain.{grown_domain, grown_routers};
ghost use Rattle.grown_domain.specs.Entries.{grown_entries};
ghost use Rattle.grown_domain.specs.Links.{grown_links};
ghost use Rattle.grown_domain.specs.Routers.{area};

use crate::links::{Link, grown_links, pairs};
use crate::routers::router;
use std::alloc::Global;
use wire_base::{Domain, M, RouterConf, Rows};

#[tactic(auto, unfolding(crate::specs::Domain::grown_routers))]
fn routers(alloc: Global, links: &[Link], n: u16) -> M<Rows<RouterConf>>
    requires { n ≤ MOST_ROUTERS }
    ensures { IfOk result (λ routers. routers ≡ grown_routers links.now n) }
{
    let mut routers = Rows::new(alloc);
    for place in 0..n {
        routers.push(router(alloc, links, n, place)?)?;
    }
    Ok(routers)
}

/// Returns the domain of `n` routers in a ring, with a chord halfway around the ring from every fifth of them.
pub fn grown(alloc: Global, n: u16) -> M<Domain>
    requires some { 3 ≤ n }
    requires few { n ≤ MOST_ROUTERS }
    ensures { IfOk result (λ domain. domain ≡ grown_domain n) }
{
    let links = grown_links(alloc, n)?;
    Ok(Domain {
        routers: routers(alloc, links.as_slice(), n)?,
        links: pairs(alloc, links.as_slice())?,
    })
}

/// The domain is the one that a domain file with its entries describes. The body is empty: the contract is the law.
#[tactic(auto, using(crate::proofs::GrownDomain::said_by_file))]
pub fn grown_as_in_a_file()
    ensures { (n : ℕ) → 3 ≤ n → n ≤ MOST_ROUTERS → domain_from Two area (grown_entries n (grown_links n)) ≡ Ok (grown_domain n) }
{}
