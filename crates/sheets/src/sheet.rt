//! What a sheet holds.

ghost use Rattle.std.specs.Prelude.{◌≡◌, ℕ, ◌<◌, ◌≤◌, [], length, slice_index, slice_index_or};
ghost use Rattle.auction.specs.Bounds.{most_orders, most_lines, most_shadow_price};

use auction::bounds::{MOST_LINES, MOST_ORDERS};

/// So many lists the box has.
pub const LISTS: usize = 3;

/// The quantities of the three lists in kWh, lambda in thousandths of a cent per MWh, the shadow prices in cents per MWh.
#[derive(Clone, Copy)]
pub struct Sheet {
    pub(crate) quantities: [[u32; MOST_ORDERS]; LISTS],
    pub(crate) lambda: i32,
    pub(crate) shadow: [u32; MOST_LINES],
    ghost three: { length quantities ≡ 3 },
    ghost wide: { (l : ℕ) → l < 3 → length (slice_index_or quantities l []) ≡ most_orders },
    ghost shadows: { length shadow ≡ most_lines },
    ghost bounded: { (l : ℕ) → slice_index shadow l ≤ most_shadow_price },
}
