//! The numbers of one line, within their bounds.

ghost use Rattle.std.specs.Prelude.{◌≡◌, ℕ, ◌≤◌, length, pos, slice_index_or, unsigned_abs};
ghost use Rattle.auction.specs.Bounds.{most_zones, most_kwh, most_sensitivity};

use auction::bounds::MOST_ZONES;

// An array for all zones that a network may have: no memory is asked for.
/// A line's limit, in kWh, and its sensitivities, in thousandths.
#[derive(Clone, Copy)]
pub struct Row {
    pub(crate) limit: u32,
    pub(crate) sensitivities: [i16; MOST_ZONES],
    ghost full: { length sensitivities ≡ most_zones },
    ghost limited: { limit ≤ most_kwh },
    ghost sensitive: { (z : ℕ) → unsigned_abs (slice_index_or sensitivities z (pos 0)) ≤ most_sensitivity },
}
