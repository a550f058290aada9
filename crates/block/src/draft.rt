//! The base of a network as the block gives it: a tree that still grows, or a table.

ghost use Rattle.std.specs.Prelude.{◌≡◌, ◌&&◌, []};
ghost use Rattle.auction.specs.Refusals.{Always, Answered};
ghost use Rattle.table.specs.Tables.{ZonesExist};
ghost use Rattle.block.specs.Phases.{allowed, for_layers};
ghost use Rattle.block.specs.Drafts.{IsTree, IsTable, Grown, phase_of};

use crate::phases::{Phase, allow, is_allowed, to_come};
use auction::bounds::MOST_ZONES;
use auction::{Fault, Refusal};
use network::Network;
use stream::Command;
use table::Table;
use tree::Tree;

/// What the block has given so far of the network below all layers.
// No Option of a tree or a table: the three are told apart together with the command, and have methods of their own.
#[derive(Clone, Copy)]
pub enum Draft {
    Nothing,
    /// A tree that is to have so many zones.
    Growing { tree: Tree, zones: u8 },
    Tabled { table: Table },
}

impl Draft {
    /// How far the block has come.
    pub fn phase(&self) -> Phase
        ensures { result ≡ phase_of self.now }
    {
        match self {
            Draft::Nothing => Phase::Start,
            // Fits: a tree that grows is to have a zone count that is a byte.
            Draft::Growing { tree, zones } => {
                to_come(usize::from(*zones).saturating_sub(tree.zones()) as u8)
            }
            Draft::Tabled { .. } => Phase::Rows,
        }
    }

    /// Does the command end the base: is it one of the layers', and allowed now?
    pub fn ends_with(&self, command: &Command) -> bool
        ensures { result ≡ (for_layers command.now && allowed (phase_of self.now) command.now) }
    {
        matches!(
            command,
            Command::Monitor { .. } | Command::HoldBack { .. } | Command::Open
        ) && is_allowed(self.phase(), command)
    }

    /// Begins a tree of so many zones, of which only zone 0 is there yet.
    fn plant(&mut self, zones: u8) -> Result<(), Fault>
        ensures { Answered result (ZonesExist zones) Always Always (λ _. IsTree self.new [] zones) (self.new ≡ self.old) }
    {
        if !(1..=MOST_ZONES).contains(&usize::from(zones)) {
            return Err(Fault::Missing);
        }
        let tree = Tree::new();
        *self = Draft::Growing { tree, zones };
        Ok(())
    }

    /// Begins a table of so many zones without a row.
    fn lay_out(&mut self, zones: u8) -> Result<(), Fault>
        ensures { Answered result (ZonesExist zones) Always Always (λ _. IsTable self.new zones []) (self.new ≡ self.old) }
    {
        let table = Table::new(zones)?;
        *self = Draft::Tabled { table };
        Ok(())
    }

    /// One more command of the base; one that is for the layers or for the box is none of the base's. A refused one leaves the base as it was.
    pub fn grow(&mut self, command: &Command) -> Result<(), Refusal>
        ensures { Grown self.old command.now result self.new }
    {
        allow(self.phase(), command)?;
        match (&mut *self, *command) {
            (draft, Command::Tree { zones }) => draft.plant(zones)?,
            (draft, Command::Table { zones }) => draft.lay_out(zones)?,
            (
                Draft::Growing { tree, .. },
                Command::Link {
                    parent,
                    to_parent,
                    to_child,
                },
            ) => tree.link(parent, to_parent, to_child)?,
            (
                Draft::Tabled { table },
                Command::Row {
                    limit,
                    sensitivities,
                },
            ) => table.add(limit, sensitivities)?,
            _ => return Err(Refusal::NotNow),
        }
        Ok(())
    }
}
