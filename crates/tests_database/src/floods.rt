//! Flooding at a full LSDB and on links that come up and go down, at a router with two links that are up and one that is
//! down. It has its own LSP and one of another system, which is to be sent on link 1 and acknowledged on link 0.
ghost use Rattle.std.specs.Prelude.{◌≡◌, length, IfOk};

use isis_flood::{Flood, LspAction, SnpOut};
use isis_pdu::LspHead;
use lsp_store::{Store, purge};
use std::alloc::Global;
use wire_base::limits::MOST_ENTRIES;
use wire_base::{Content, Entry, LspId, M, Memory, SystemId};

/// System, fragment, sequence number, lifetime and checksum of what arrives.
type Said = (u8, u8, u32, u16, u16);

/// To be sent on link 0 and on link 1, to be acknowledged or requested on link 0 and on link 1.
type Flags = [bool; 4];

const NONE: Flags = [false; 4];

/// If the LSDB is full, a new entry is dropped, and no flag is set for it.
#[test]
fn a_full_database(rt: HostRuntime) {
    let dropped = SnpOut {
        reissue: None,
        full: 1,
    };
    assert_eq!(rt;
        when_full(rt.alloc()),
        Ok((MOST_ENTRIES, [LspAction::Full; 2], dropped, [NONE; 2]))
    );
}

/// Sending clears no SRM flag. On a link that comes up all that is known is to be sent, and a link that goes down has
/// no flag.
#[test]
fn links(rt: HostRuntime) {
    assert_eq!(rt; on_links(rt.alloc()), Ok(LINKS));
}

/// How many entries there are; the replies to two that are new, one of them of the own system, and to a list of a new
/// one; and the flags of both systems' new ones.
type Full = (usize, [LspAction; 2], SnpOut, [Flags; 2]);

fn when_full(alloc: Global) -> M<Full> {
    let mut flood = no_flags(alloc)?;
    let mut store = Store::new(alloc);
    full_told(&mut flood, &mut store)
}

fn full_told(flood: &mut Flood, store: &mut Store) -> M<Full>
    requires { length flood.old.flood.up ≡ 3 }
{
    start(flood, store)?;
    fill(store)?;
    let len = store.len();
    let others = flood.on_lsp(store, 1, &head((3, 0, 5, 900, 7)), &[], false)?;
    let own = flood.on_lsp(store, 1, &head((1, 1, 1, 900, 5)), &[], false)?;
    let own_flags = flags_of(flood, id(1, 1));
    let listed = flood.on_psnp(store, 1, &entries_tlv((3, 0, 5, 900, 7)), false)?;
    let flags = [own_flags, flags_of(flood, id(3, 0))];
    Ok((len, [others, own], listed, flags))
}

/// Stores purges of another system, until there is no more room.
fn fill(store: &mut Store) -> M<()> {
    for number in 2..MOST_ENTRIES as u16 {
        let other = LspId {
            pseudonode: (number / 256) as u8,
            ..id(9, (number % 256) as u8)
        };
        put(store, purge(other, 1))?;
    }
    Ok(())
}

/// On each link, whether a CSNP is due, whether something may be due to be sent, and whether something may be due to be
/// acknowledged or requested.
type Links = ([bool; 3], [bool; 3], [bool; 3]);

/// The links at the start and after all was sent on the two that are up, and the other system's flags then. Of link 2,
/// after it came up: whether it is up, whether a CSNP is due, and whether the own system's and the other one's are to
/// be sent. Of link 1, after it went down: whether it is up, and whether something may be due to be sent, and to be
/// acknowledged or requested. Of link 2, after the other system's flags were removed: whether something may be due to
/// be sent, and whether that system's is.
type Told = (Links, Links, Flags, [bool; 4], [bool; 3], [bool; 2]);

const LINKS: Told = (
    (
        [true, true, false],
        [true, true, false],
        [true, false, false],
    ),
    ([false; 3], [false, true, false], [false; 3]),
    [false, true, false, false],
    [true; 4],
    [false; 3],
    [true, false],
);

fn on_links(alloc: Global) -> M<Told> {
    let mut flood = no_flags(alloc)?;
    let mut store = Store::new(alloc);
    links_told(&mut flood, &mut store)
}

fn links_told(flood: &mut Flood, store: &mut Store) -> M<Told>
    requires { length flood.old.flood.up ≡ 3 }
{
    start(flood, store)?;
    let first = links_of(flood);
    flood.sent(0);
    flood.sent(1);
    let after = links_of(flood);
    let flags = flags_of(flood, id(2, 0));
    flood.link_up(store, 2)?;
    let up = [
        flood.is_up(2),
        flood.due(2),
        flood.srm(id(1, 0), 2),
        flood.srm(id(2, 0), 2),
    ];
    flood.link_down(1);
    let down = [flood.is_up(1), flood.may_send(1), flood.may_ask(1)];
    flood.forget(id(2, 0));
    let forgotten = [flood.may_send(2), flood.srm(id(2, 0), 2)];
    Ok((first, after, flags, up, down, forgotten))
}

fn links_of(flood: &Flood) -> Links {
    (
        [flood.due(0), flood.due(1), flood.due(2)],
        [flood.may_send(0), flood.may_send(1), flood.may_send(2)],
        [flood.may_ask(0), flood.may_ask(1), flood.may_ask(2)],
    )
}

fn no_flags(alloc: Global) -> M<Flood>
    ensures { IfOk result (λ f. length f.flood.up ≡ 3) }
{
    Flood::new(alloc, SystemId([0, 0, 0, 0, 0, 1]), 3, &[true, true, false])
}

/// Stores both systems' LSPs, and sets the flags of the other one's.
fn start(flood: &mut Flood, store: &mut Store) -> M<()>
    requires { length flood.old.flood.up ≡ 3 }
    ensures { length flood.new.flood.up ≡ 3 }
{
    put(store, entry(id(1, 0), 3, 9))?;
    put(store, entry(id(2, 0), 5, 7))?;
    flood.mark_all(id(2, 0))?;
    flood.on_lsp(store, 0, &head((2, 0, 5, 900, 7)), &[], false)?;
    Ok(())
}

fn put(store: &mut Store, e: Entry) -> M<()> {
    match store.put(e) {
        Ok(()) => Ok(()),
        Err(_) => Err(Memory),
    }
}

fn entry(id: LspId, seq: u32, sum: u16) -> Entry {
    Entry {
        id,
        seq,
        life: 900,
        hold: 0,
        sum,
        flags: 3,
        content: Content::new(),
    }
}

fn id(system: u8, fragment: u8) -> LspId {
    LspId {
        system: SystemId([0, 0, 0, 0, 0, system]),
        pseudonode: 0,
        fragment,
    }
}

fn head((system, fragment, seq, life, sum): Said) -> LspHead {
    LspHead {
        life,
        id: id(system, fragment),
        seq,
        sum,
        flags: 3,
    }
}

/// Returns the TLV that lists one entry.
fn entries_tlv((system, fragment, seq, life, sum): Said) -> [u8; 18] {
    let seq = seq.to_be_bytes();
    let life = life.to_be_bytes();
    let sum = sum.to_be_bytes();
    [
        9, 16, life[0], life[1], 0, 0, 0, 0, 0, system, 0, fragment, seq[0], seq[1], seq[2],
        seq[3], sum[0], sum[1],
    ]
}

fn flags_of(flood: &Flood, id: LspId) -> Flags {
    [
        flood.srm(id, 0),
        flood.srm(id, 1),
        flood.ssn(id, 0),
        flood.ssn(id, 1),
    ]
}
