//! A domain: its routers and the links between them.
ghost use Rattle.std.specs.Prelude.{◌≡◌, IfOk};

use crate::conf::{LinkConf, RouterConf};
use crate::lists::Rows;
use crate::memory::M;
use std::alloc::Global;
use std::marker::Model;

/// A valid domain. Each index in it refers to a router of the domain, each router's configuration is sound, and the values
/// that must differ or agree between routers do so.
#[derive(Drop)]
pub struct Domain {
    pub routers: Rows<RouterConf>,
    pub links: Rows<LinkConf>,
}

impl Model for Domain {
    ghost use Rattle.wire_base.specs.model.Configuration.{DomainConf, IsValid};

    ghost Value = { DomainConf };

    ghost view = { λ d. record { routers = d.routers; links = d.links } };

    ghost invariant = { λ d. IsValid (record { routers = d.routers; links = d.links }) };
}

impl Domain {
    /// Returns an equal domain. Errors if an allocation fails.
    pub fn copy(&self) -> M<Self>
        ensures { IfOk result (λ copied. copied ≡ self.now) }
    {
        Ok(Domain {
            routers: copy_of_routers(self.routers.allocator(), self.routers.as_slice())?,
            links: self.links.copy()?,
        })
    }
}

fn copy_of_routers(alloc: Global, routers: &[RouterConf]) -> M<Rows<RouterConf>>
    ensures { IfOk result (λ copied. copied ≡ routers.now) }
{
    let mut copied = Rows::new(alloc);
    for router in routers {
        copied.push(router.copy()?)?;
    }
    Ok(copied)
}
