//! The links that a system lists in its TLVs 22.
ghost use Rattle.std.specs.Prelude.{◌≡◌, ◌++◌, OnOk, option_to_list};
ghost use Rattle.std.specs.List.{filter_map};
ghost use Rattle.wire_base.specs.model.Tlv.{entries_of, reach_at};
ghost use Rattle.wire_base.specs.model.View.{link_of};
ghost use Rattle.isis_tlv.specs.Views.{reach_of};

use isis_tlv::{Reach, ReachWalk};
use std::marker::Model;
use wire_base::{Few, M, SystemId};

/// A link to a neighbor, with its metric.
#[derive(Default, Drop)]
pub(crate) struct Link {
    pub(crate) neighbour: SystemId,
    pub(crate) metric: u32,
}

impl Model for Link {
    ghost use Rattle.wire_base.specs.model.View.{Link as LinkItem};

    ghost Value = { LinkItem };

    ghost view = { λ l. record { neighbour = l.neighbour; metric = l.metric } };
}

/// The links of a system; most routers have two or three, and each topology reads those of all.
pub(crate) type LinkList = Few<Link, 4>;

/// Returns a link to a router, not to a pseudonode, with a metric that counts; 0 counts as 1 (RFC 5305, 3).
fn link_of(reach: &Reach<'_>) -> Option<Link>
    ensures { result ≡ link_of (reach_of reach.now) }
{
    if reach.pseudonode == 0 && reach.metric < 16_777_215 {
        Some(Link {
            neighbour: reach.neighbour,
            metric: reach.metric.max(1),
        })
    } else {
        None
    }
}

fn append_link(links: &mut LinkList, reach: &Reach<'_>) -> M<()>
    ensures { OnOk result (links.new ≡ links.old ++ option_to_list (link_of (reach_of reach.now))) }
{
    match link_of(reach) {
        Some(link) => links.push(link),
        None => Ok(()),
    }
}

/// Appends the links of a TLV 22, up to the first invalid entry.
pub(crate) fn append_links(links: &mut LinkList, value: &[u8]) -> M<()>
    ensures { OnOk result (links.new ≡ links.old ++ filter_map link_of (entries_of reach_at value.now)) }
{
    for entry in ReachWalk::new(value) {
        if let Ok(reach) = entry {
            append_link(links, &reach)?;
        }
    }
    Ok(())
}
