//! A tree of zones, within its bounds.

ghost use Rattle.std.specs.Prelude.{◌≡◌, ℕ, ◌≤◌, slice_index_or};
ghost use Rattle.auction.specs.Bounds.{most_kwh};
ghost use Rattle.tree.specs.Links.{no_link};

use super::MOST_LINKS;
use filled::Filled;

/// What joins a zone to its parent, with the limits of the two directions in kWh.
#[derive(Clone, Copy)]
pub struct Link {
    pub parent: u8,
    pub to_parent: u32,
    pub to_child: u32,
}

/// The link of zone `c` stands at `c - 1`.
#[derive(Clone, Copy)]
pub struct Tree {
    pub(crate) links: Filled<Link, MOST_LINKS>,
    ghost parents: { (i : ℕ) → (slice_index_or links.rows i no_link).parent ≤ i },
    ghost limited_to_parent: { (i : ℕ) → (slice_index_or links.rows i no_link).to_parent ≤ most_kwh },
    ghost limited_to_child: { (i : ℕ) → (slice_index_or links.rows i no_link).to_child ≤ most_kwh },
}
