//! The names of systems.
use isis_text::show_name;
use std::alloc::Global;
use wire_base::{Ipv4, M, RouterConf, SystemId};

/// The names that a domain file gives systems: the configurations of its routers.
#[derive(Clone, Copy)]
pub struct Names<'a> {
    pub routers: &'a [RouterConf],
}

fn name_of(alloc: Global, router: &RouterConf) -> M<String> {
    let mut text = String::new(alloc);
    show_name(&mut text, router.name.as_slice())?;
    Ok(text)
}

impl<'a> Names<'a> {
    /// Returns the name of a system, or its system ID if the domain file does not have it.
    pub fn of(&self, alloc: Global, system: SystemId) -> M<String> {
        for router in self.routers {
            if router.system == system {
                return name_of(alloc, router);
            }
        }
        Ok(format!(in alloc; "{system}")?)
    }

    /// Returns the name of the router with that BFR-prefix, or the prefix if the domain file does not have it.
    pub fn at(&self, alloc: Global, prefix: Ipv4) -> M<String> {
        for router in self.routers {
            if router.prefix == prefix {
                return name_of(alloc, router);
            }
        }
        Ok(format!(in alloc; "{prefix}")?)
    }
}
