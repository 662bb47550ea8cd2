//! Times of packets.
ghost use Rattle.std.specs.Prelude.{◌≡◌, ◌*◌, ◌/◌, ◌<◌, ◌≤◌, ◌^◌, IfSome};
ghost use Rattle.pcapng_frames.specs.Times.{units, moment_of, moment_in};

/// A time: the second, and the microsecond in it.
#[derive(Clone, Copy)]
pub struct Moment {
    pub sec: u32,
    pub usec: u32,
}

/// Returns how many units of time a second has at that resolution; None if it is not one.
pub fn units_of(resolution: u8) -> Option<u64>
    ensures exact { result ≡ units resolution }
    ensures some { IfSome result (λ second. 0 < second) }
{
    match resolution {
        0..=18 => Some(power(10, resolution)),
        128..=191 => Some(power(2, resolution - 128)),
        _ => None,
    }
}

/// Returns a power of `base`.
fn power(base: u64, exponent: u8) -> u64
    requires some { 0 < base }
    requires fits { base ^ exponent < 2 ^ 64 }
    ensures { result ≡ base ^ exponent }
{
    let mut product = 1;
    for done in 0..exponent {
        product *= base;
    }
    product
}

/// Returns the time that is a number of units at that resolution; None if the resolution is none, or the seconds do not fit 32
/// bits.
pub fn moment_at(ticks: u64, resolution: u8) -> Option<Moment>
    ensures { result ≡ moment_in ticks (units resolution) }
{
    let second = units_of(resolution)?;
    moment_by(ticks, second)
}

/// The same where a second has that many units.
fn moment_by(ticks: u64, second: u64) -> Option<Moment>
    requires { 0 < second }
    ensures { result ≡ moment_of ticks second }
{
    let sec = ticks / second;
    if sec > 4_294_967_295 {
        return None;
    }
    Some(Moment {
        sec: sec as u32,
        usec: microseconds(ticks % second, second),
    })
}

/// Returns the microseconds of a part of a second, cut down.
fn microseconds(part: u64, second: u64) -> u32
    requires { part < second }
    ensures { result ≡ part * 1000000 / second }
{
    let scaled = u128::from(part) * 1_000_000;
    (scaled / u128::from(second)) as u32
}
