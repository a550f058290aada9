//! The layers that the block lays over the base of a network.

ghost use Rattle.std.specs.Prelude.{◌≡◌};
ghost use Rattle.block.specs.Layerings.{BareOver, Lays, opened, stage_phase};

use crate::phases::{Phase, allow};
use auction::Refusal;
use layers::{HeldBack, Monitored};
use network::Network;
use stream::Command;

/// Which layer was given last.
// Not a phase of the block: layers never stand where their base is not whole yet.
#[derive(Clone, Copy, PartialEq, Eq, Debug)]
pub enum Stage {
    Bare,
    Watched,
    Held,
    Open,
}

impl From<Stage> for Phase {
    ghost from_gives = { λ stage phase. phase ≡ stage_phase stage };

    fn from(stage: Stage) -> Phase {
        match stage {
            Stage::Bare => Phase::Linked,
            Stage::Watched => Phase::Monitored,
            Stage::Held => Phase::HeldBack,
            Stage::Open => Phase::Open,
        }
    }
}

/// A network with both layers, as far as the block has given them.
#[derive(Drop)]
pub struct Layered<N> {
    stage: Stage,
    network: HeldBack<Monitored<N>>,
}

impl<N: Network> Layered<N> {
    /// Both layers, with nothing in them yet.
    pub fn over(base: N) -> Layered<N>
        ensures { BareOver base result }
    {
        Layered {
            stage: Stage::Bare,
            network: HeldBack::new(Monitored::new(base)),
        }
    }

    /// The network with its layers.
    pub fn network(&self) -> &HeldBack<Monitored<N>>
        ensures { result.now ≡ self.now.network }
    {
        &self.network
    }

    /// The network with its layers, once the block is read.
    pub fn into_network(self) -> HeldBack<Monitored<N>>
        ensures { result ≡ self.network }
    {
        self.network
    }

    /// Was the box opened?
    pub fn is_open(&self) -> bool
        ensures { result ≡ opened self.now.stage }
    {
        self.stage == Stage::Open
    }

    /// One more command of the block.
    pub fn lay(&mut self, command: &Command) -> Result<(), Refusal>
        ensures { Lays N.Network.grid self.old command.now result self.new }
    {
        allow(self.stage.into(), command)?;
        match *command {
            Command::Monitor {
                limit,
                sensitivities,
            } => {
                self.network.watch(limit, sensitivities)?;
                self.stage = Stage::Watched;
            }
            Command::HoldBack { line, kwh } => {
                self.network.hold_back(usize::from(line), kwh)?;
                self.stage = Stage::Held;
            }
            _ => self.stage = Stage::Open,
        }
        Ok(())
    }
}
