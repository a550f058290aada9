//! From the items of a stream to commands.
#![tactic(auto)]

mod hour;
mod network;
mod operands;
mod sheet;

ghost use Rattle.std.specs.Prelude.{◌≡◌, ◌∷◌, MatchOption};
ghost use Rattle.stream.specs.Reading.{Whole};
ghost use Rattle.stream.specs.Spelling.{spelled};

use crate::hour::hour_command;
use crate::network::network_command;
use crate::sheet::sheet_command;
use stream::{Command, Item};

/// The command that an item spells; none where its letter names none or has another count of operands.
pub fn decode(item: &Item<'_>) -> Option<Command>
    ensures { MatchOption result (Whole item.now.letter item.now.operands.now → ⊥) (λ command. spelled command ≡ item.now.letter ∷ item.now.operands.now) }
{
    // Not one reader with parsing's: there the count is asked before the widths, and a fault says which.
    // Not `or_else`: what a closure gave is not seen in the proof, and a group reads no more than a byte of another's.
    network_command(item)
        .or(hour_command(item))
        .or(sheet_command(item))
}
