//! How much is held back of each line.

ghost use Rattle.std.specs.Prelude.{◌≡◌, length};
ghost use Rattle.auction.specs.Bounds.{most_lines};

use auction::bounds::MOST_LINES;

/// In kWh, for each line that a network may have.
#[derive(Clone, Copy)]
pub struct Amounts {
    pub(crate) kwh: [u32; MOST_LINES],
    ghost full: { length kwh ≡ most_lines },
}
