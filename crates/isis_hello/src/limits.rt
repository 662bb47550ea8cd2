//! The limits of a run of hellos, and the holding time. Code and definitions share these constants.

/// The maximum number of hello events in a run.
pub const MOST_HELLO_EVENTS: u32 = 16_000_000;
/// The maximum number of hellos in flight before an event that sends one.
pub const MOST_HELLOS: usize = 100_000;
/// The holding time in seconds that each hello announces (ISO/IEC 10589, 9.7).
pub const HOLDING_TIME: u16 = 30;
