//! Forwards packets through one hop, and measures the time.
ghost use Rattle.std.specs.Prelude.{◌≡◌, ◌<◌, length};

use crate::stop::Stop;
use crate::ways::rows;
use bier_bits::BitString;
use bier_hop::{Hop, Out};
use bift_table::Table;
use std::marker::Brand;
use std::sync::ledger::{Blank, Ledger};
use std::time::Instant;
use wire_base::Steps;

const TTL: u16 = 64;

const IDS: u8 = 20;

/// The result of forwarding packets: the number of copies and drops, and the sum of the first and last octets of the copies.
#[derive(Clone, Copy)]
pub struct Sent {
    pub copies: u64,
    pub drops: u64,
    pub sum: u64,
}

/// The times in microseconds of building the table and of forwarding the packets.
#[derive(Clone, Copy)]
pub struct Times {
    pub table: u128,
    pub packets: u128,
}

pub fn measure(rt: &HostRuntime, packets: u32) -> Result<(Sent, Times), Stop> {
    let rows = rows(rt.alloc())?;
    let start = Instant::now(rt)?;
    let table = Table::<64>::build(rt.alloc(), &rows, 0)?;
    let built = start.elapsed(rt)?;
    let start = Instant::now(rt)?;
    let sent = forward::<Brand>(&table, packets, Blank::new(1));
    let forwarded = start.elapsed(rt)?;
    let times = Times {
        table: built.as_micros(),
        packets: forwarded.as_micros(),
    };
    Ok((sent, times))
}

/// Forwards that many packets, each newly generated.
fn forward<L: Ledger>(table: &Table<64>, packets: u32, blank: Blank) -> Sent
    requires name { blank.name ≡ L.name }
    requires parts { blank.parts ≡ L.parts }
    requires some { 0 < blank.parts }
{
    let mut steps = Steps::<L>::new(blank);
    let mut sent = Sent {
        copies: 0,
        drops: 0,
        sum: 0,
    };
    let mut random = 7;
    for _ in 0..packets {
        let octets = packet(&mut random);
        pass(table, &octets, &mut steps, &mut sent);
    }
    sent
}

/// Returns the BitString of a packet in octets: BFR-ids from a linear congruential generator.
fn packet(random: &mut u64) -> [u8; 512] {
    let mut bits = BitString::<64>::zero();
    for _ in 0..IDS {
        *random = random
            .wrapping_mul(6_364_136_223_846_793_005)
            .wrapping_add(1_442_695_040_888_963_407);
        bits.set((*random >> 52) as u16 + 1);
    }
    let mut octets = [0; 512];
    bits.to_be_bytes(&mut octets);
    octets
}

/// Forwards one packet, from its octets to those of its copies.
fn pass<L: Ledger>(table: &Table<64>, octets: &[u8], steps: &mut Steps<L>, sent: &mut Sent)
    requires { length octets.now ≡ 512 }
{
    let mut hop = Hop::begin(table, None, BitString::<64>::read(octets), TTL);
    'outcomes: while let Some(out) = hop.next(steps) {
        match out {
            Out::Copy { set, .. } => {
                sent.copies = sent.copies.wrapping_add(1);
                sent.sum = sent.sum.wrapping_add(sum_of(&set));
            }
            _ => sent.drops = sent.drops.wrapping_add(1),
        }
    }
}

/// Returns the sum of the first and the last octet in which a set is sent.
fn sum_of(set: &BitString<64>) -> u64 {
    let mut out = [0; 512];
    set.to_be_bytes(&mut out);
    u64::from(out[0]).wrapping_add(u64::from(out[511]))
}
