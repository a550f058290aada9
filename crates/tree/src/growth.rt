//! How a tree grows, zone by zone.

ghost use Rattle.std.specs.Prelude.{◌≡◌, [], ◌∷◌, ◌++◌};
ghost use Rattle.auction.specs.Refusals.{Always, Answered};
ghost use Rattle.tree.specs.Links.{link_with, zone_count, NextExists, LimitsInRange};
ghost use Rattle.tree.specs.Trees.{links_of, Shaped};

use super::grown::{Link, Tree};
use auction::Fault;
use auction::bounds::{MOST_KWH, MOST_ZONES};
use filled::Filled;

impl Tree {
    /// One zone, and no line.
    pub fn new() -> Tree
        ensures bare { links_of result ≡ [] }
        ensures shaped { Shaped result }
    {
        let blank = Link {
            parent: 0,
            to_parent: 0,
            to_child: 0,
        };
        Tree {
            links: Filled::new(blank),
        }
    }

    /// Adds the next zone below `parent`, which is there: refused where there is no next zone or no such parent, else where a limit is out of range.
    pub fn link(&mut self, parent: u8, to_parent: u32, to_child: u32) -> Result<(), Fault>
        ensures grown { Answered result (NextExists (links_of self.old) parent) (LimitsInRange to_parent to_child) Always (λ _. links_of self.new ≡ links_of self.old ++ link_with parent to_parent to_child ∷ []) (self.new ≡ self.old) }
        ensures shaped { Shaped self.new }
    {
        let next = self.next_zone();
        if next >= MOST_ZONES || usize::from(parent) >= next {
            return Err(Fault::Missing);
        }
        if to_parent > MOST_KWH || to_child > MOST_KWH {
            return Err(Fault::OutOfRange);
        }
        self.links.push(Link {
            parent,
            to_parent,
            to_child,
        })
    }

    /// The number that the next zone gets: how many there are.
    pub(crate) fn next_zone(&self) -> usize
        ensures { result ≡ zone_count (links_of self.now) }
    {
        self.links.len() + 1
    }
}
