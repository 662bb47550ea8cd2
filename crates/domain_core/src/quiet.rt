//! Whether a domain is quiet.
ghost use Rattle.std.specs.Prelude.{◌≡◌, ◌<◌, length, map, None};
ghost use Rattle.quiet_domain.specs.Live.{first_difference};
ghost use Rattle.quiet_domain.specs.declared.answer.Quiet.TheVariants.{Yes};
ghost use Rattle.laws_quiet.specs.Quiet.{AreIssuers, lsdb_at};
ghost use Rattle.domain_model.specs.Faults.{is_up_toward};
ghost use Rattle.domain_core.specs.Held.{state_of, world_in};
ghost use Rattle.domain_core.specs.Network.{IsTrueNetwork};
ghost use Rattle.domain_core.specs.Quiet.{data_reason, links_reason, quiet_of, reason_at, spent_from};

use crate::network::Network;
use quiet_domain::{Quiet, same_live};
use router_core::Router;
use wire_base::{LinkConf, LspId};

/// Returns the answer for the first router whose sequence number space is exhausted.
fn spent_answer(routers: &[Router]) -> Option<Quiet>
    requires few { length routers.now < 65536 }
    ensures value { result ≡ spent_from 0 (map (λ r. r.control) routers.now) }
    ensures issued { result ≡ None → AreIssuers (map (λ r. r.control) routers.now) }
{
    for place in 0..routers.len() {
        if routers[place].spent() {
            return Some(Quiet::Spent(place as u16));
        }
    }
    None
}

impl Network {
    /// Returns whether the domain is quiet, or the first reason why not.
    #[tactic(auto, unfolding(crate::specs::Quiet::quiet_of))]
    pub(crate) fn quiet(&self) -> Quiet
        requires truth { IsTrueNetwork (state_of self.now) }
        ensures value { result ≡ quiet_of (world_in self.now) }
        ensures issued { result ≡ Yes → AreIssuers (world_in self.now).routers }
    {
        match self.spent_answer() {
            Some(answer) => answer,
            None => self.links_answer().unwrap_or(Quiet::Yes),
        }
    }

    /// Returns the answer for the first router whose sequence number space is exhausted.
    pub(crate) fn spent_answer(&self) -> Option<Quiet>
        requires truth { IsTrueNetwork (state_of self.now) }
        ensures value { result ≡ spent_from 0 (world_in self.now).routers }
        ensures issued { result ≡ None → AreIssuers (world_in self.now).routers }
    {
        spent_answer(self.routers.as_slice())
    }

    /// Returns the answer for the first link that is not quiet.
    fn links_answer(&self) -> Option<Quiet>
        requires truth { IsTrueNetwork (state_of self.now) }
        ensures { result ≡ links_reason (world_in self.now) self.now.domain.links }
    {
        for link in self.domain.conf().links.as_slice() {
            if let Some(answer) = self.link_answer(*link) {
                return Some(answer);
            }
        }
        None
    }

    /// Returns the answer for a link, if it is not quiet.
    fn link_answer(&self, link: LinkConf) -> Option<Quiet>
        requires a { link.a < length self.now.routers.items }
        requires b { link.b < length self.now.routers.items }
        ensures { result ≡ reason_at (world_in self.now) link }
    {
        match (
            self.is_up_toward(link.a, link.b),
            self.is_up_toward(link.b, link.a),
        ) {
            (true, true) => data_answer(link, self.difference(link.a, link.b)),
            (false, false) => None,
            _ => Some(Quiet::Half(link.a, link.b)),
        }
    }

    /// Returns whether the interface of a router toward another is up.
    fn is_up_toward(&self, from: u16, to: u16) -> bool
        requires { from < length self.now.routers.items }
        ensures { result ≡ is_up_toward (world_in self.now) from to }
    {
        match self.link(from, to) {
            Some(link) => self.is_end_up(from, link),
            None => false,
        }
    }

    /// Returns the least LSP ID at which the LSDBs of two routers differ in live LSPs.
    fn difference(&self, a: u16, b: u16) -> Option<LspId>
        requires a { a < length self.now.routers.items }
        requires b { b < length self.now.routers.items }
        ensures { result ≡ first_difference (lsdb_at (world_in self.now) a) (lsdb_at (world_in self.now) b) }
    {
        same_live(
            self.routers[usize::from(a)].store(),
            self.routers[usize::from(b)].store(),
        )
    }
}

/// Returns the answer for a link that is up, given the least LSP ID at which the LSDBs at its ends differ.
fn data_answer(link: LinkConf, difference: Option<LspId>) -> Option<Quiet>
    ensures { result ≡ data_reason link difference }
{
    match difference {
        Some(id) => Some(Quiet::Data(link.a, link.b, id)),
        None => None,
    }
}
