//! How long a schedule may be.

/// Bytes of a schedule's file.
pub const SCHEDULE_BYTES: usize = 67_108_864;
/// Events of a schedule.
pub const EVENTS: usize = 1_000_000;
/// Every number and every location of an event is below this.
pub const NUMBERS: u64 = 1 << 63;
