//! How many of each thing there may be, and how large each number: specs/Bounds.antt in the code's words.

/// Zones of one network.
pub const MOST_ZONES: usize = 24;
/// Lines of one network, with its monitored rows.
pub const MOST_LINES: usize = 60;
/// Monitored rows of one layer.
pub const MOST_MONITORED: usize = 10;
/// Orders entered in one list in one hour.
pub const MOST_ORDERS: usize = 512;
/// Tries in one hour.
pub const MOST_TRIES: u16 = 200;
/// Settled hours.
pub const MOST_HOURS: u16 = 744;
/// A quantity, a limit, a held-back amount, and all standing orders together.
pub const MOST_KWH: u32 = 10_000_000;
/// An order's price, in cents per MWh.
pub const MOST_PRICE: u32 = 500_000;
/// The size of lambda, in thousandths of a cent per MWh.
pub const MOST_LAMBDA: i32 = 1_000_000_000;
/// The size of a zone price, in thousandths of a cent per MWh.
pub const MOST_ZONE_PRICE: i32 = 500_000_000;
/// A line's shadow price, in cents per MWh.
pub const MOST_SHADOW_PRICE: u32 = 1_000_000;
/// The size of a sensitivity, in thousandths.
pub const MOST_SENSITIVITY: i16 = 1000;
