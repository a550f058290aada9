//! The network block as far as it was read: a tree or a table that grows, then the layers over it.
#![tactic(auto)]

ghost use Rattle.std.specs.Prelude.{◌≡◌, Ok, Err, MatchResult};
ghost use Rattle.ground.specs.Grounds.{opened_ground, BegunOver, Begins, Takes};
ghost use Rattle.ground.specs.declared.Ground.TheVariants.{Base};

use auction::Refusal;
use block::{Draft, Layered};
use network::Network;
use stream::Command;
use table::Table;
use tree::Tree;

/// The base of the network, or the base with its layers.
// A variant for each network, not one over either: the hours are compiled for each.
#[derive(Drop)]
pub enum Ground {
    Base { draft: Draft },
    OverTree { layered: Layered<Tree> },
    OverTable { layered: Layered<Table> },
}

impl Ground {
    /// Was the box opened?
    pub fn is_open(&self) -> bool
        ensures { result ≡ opened_ground self.now }
    {
        match self {
            Ground::Base { .. } => false,
            Ground::OverTree { layered } => layered.is_open(),
            Ground::OverTable { layered } => layered.is_open(),
        }
    }

    /// One more command of the block; a refused one leaves everything as it was.
    pub fn take(&mut self, command: &Command) -> Result<(), Refusal>
        ensures { Takes self.old command.now result self.new }
    {
        match self {
            Ground::Base { draft } if draft.ends_with(command) => {
                *self = begin_layers(*draft, command)?;
                Ok(())
            }
            Ground::Base { draft } => draft.grow(command),
            Ground::OverTree { layered } => layered.lay(command),
            Ground::OverTable { layered } => layered.lay(command),
        }
    }
}

/// The layers over a base, begun with their first command.
fn layers_over<N: Network + Drop>(base: N, command: &Command) -> Result<Layered<N>, Refusal>
    ensures { MatchResult result (λ layered. BegunOver N.Network.grid base command.now (Ok tt) layered) (λ refusal. (layered : Layered N) × BegunOver N.Network.grid base command.now (Err refusal) layered) }
{
    let mut layered = Layered::over(base);
    layered.lay(command)?;
    Ok(layered)
}

/// The base ends with the first command of the layers, where it is accepted.
fn begin_layers(draft: Draft, command: &Command) -> Result<Ground, Refusal>
    ensures { MatchResult result (λ after. Begins draft command.now (Ok tt) after) (λ refusal. Begins draft command.now (Err refusal) (Base draft)) }
{
    match draft {
        Draft::Nothing => Err(Refusal::NotNow),
        Draft::Growing { tree, .. } => Ok(Ground::OverTree {
            layered: layers_over(tree, command)?,
        }),
        Draft::Tabled { table } => Ok(Ground::OverTable {
            layered: layers_over(table, command)?,
        }),
    }
}
