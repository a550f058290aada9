//! The network that a tree is.

ghost use Rattle.std.specs.Prelude.{◌≡◌, ◌<◌, ◌≤◌, Decides, MatchOption, slice_index_or, unsigned_abs};
ghost use Rattle.auction.specs.Bounds.{most_sensitivity};
ghost use Rattle.auction.specs.Grids.{no_line};
ghost use Rattle.tree.specs.Links.{link_of, zone_count, Descends};
ghost use Rattle.tree.specs.Trees.{links_of, share, tree_lines, tree_grid};
ghost use Rattle.tree.specs.Ways.{Leads};
ghost use Rattle.tree.specs.Shape.{tree_zoned, tree_few_zones, tree_few_lines, limit_in_range, sensitivity_in_range};

use super::grown::{Link, Tree};
use auction::bounds::MOST_SENSITIVITY;
use network::Network;

/// Which way a line leads: from a zone to its parent, or from the parent to that zone.
#[derive(Clone, Copy)]
enum Way {
    ToParent(usize),
    ToChild(usize),
}

impl Tree {
    /// Nothing for a line that the tree lacks.
    fn way(&self, line: usize) -> Option<Way>
        ensures { MatchOption result (slice_index_or (tree_lines (links_of self.now)) line no_line ≡ no_line) (Leads (links_of self.now) line) }
    {
        let child = line / 2 + 1;
        if child > self.links.len() {
            return None;
        }
        if line % 2 == 0 {
            return Some(Way::ToParent(child));
        }
        Some(Way::ToChild(child))
    }

    /// The link of a zone that is there and is not 0.
    fn link_of(&self, child: usize) -> Link
        requires { (0 < child) × (child < zone_count (links_of self.now)) }
        ensures { result ≡ link_of (links_of self.now) child }
    {
        self.links.as_slice()[child - 1]
    }

    /// Does the way from `zone`, which is there, to zone 0 pass `child`?
    fn descends(&self, child: usize, zone: usize) -> bool
        requires { zone < zone_count (links_of self.now) }
        ensures { Decides result (Descends (links_of self.now) child zone) }
    {
        let links = self.links.as_slice();
        let mut at = zone;
        // A loop: it climbs from child to parent, and counts nothing.
        while at > child {
            at = usize::from(links[at - 1].parent);
        }
        at == child
    }

    /// What is fed into a zone that is there flows over the line from `child` to its parent wholly, or not at all.
    fn share_of(&self, child: usize, zone: usize) -> i16
        requires { zone < zone_count (links_of self.now) }
        ensures { (result ≡ share (links_of self.now) child zone) × (unsigned_abs result ≤ most_sensitivity) }
    {
        if self.descends(child, zone) {
            return MOST_SENSITIVITY;
        }
        0
    }
}

impl Network for Tree {
    ghost grid = { λ t. tree_grid (links_of t) };

    ghost zoned = { tree_zoned };

    ghost fewzones = { tree_few_zones };

    ghost fewlines = { tree_few_lines };

    ghost limited = { limit_in_range };

    ghost sensitive = { λ t l z. sensitivity_in_range (links_of t) l z };

    fn zones(&self) -> usize {
        self.next_zone()
    }

    fn lines(&self) -> usize {
        2 * self.links.len()
    }

    fn sensitivity(&self, line: usize, zone: usize) -> i16 {
        if zone >= self.next_zone() {
            return 0;
        }
        match self.way(line) {
            Some(Way::ToParent(child)) => self.share_of(child, zone),
            Some(Way::ToChild(child)) => -self.share_of(child, zone),
            None => 0,
        }
    }

    fn limit(&self, line: usize) -> u32 {
        match self.way(line) {
            Some(Way::ToParent(child)) => self.link_of(child).to_parent,
            Some(Way::ToChild(child)) => self.link_of(child).to_child,
            None => 0,
        }
    }
}
