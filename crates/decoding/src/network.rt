//! The commands of the network block.

ghost use Rattle.decoding.specs.Groups.{Reads};
ghost use Rattle.stream.specs.Reading.{network_length};

use crate::operands::Operands;
use stream::{Command, Item};

/// A command of the network block.
pub(crate) fn network_command(item: &Item<'_>) -> Option<Command>
    ensures { Reads (network_length item.now.letter) item.now.letter item.now.operands.now result }
{
    let mut operands = Operands {
        rest: item.operands,
    };
    let command = match item.letter {
        b'Z' => Command::Tree {
            zones: operands.byte()?,
        },
        b'Y' => Command::Table {
            zones: operands.byte()?,
        },
        b'K' => Command::Link {
            parent: operands.byte()?,
            to_parent: operands.four()?,
            to_child: operands.four()?,
        },
        b'R' => Command::Row {
            limit: operands.four()?,
            sensitivities: operands.row()?,
        },
        b'V' => Command::Monitor {
            limit: operands.four()?,
            sensitivities: operands.row()?,
        },
        b'H' => Command::HoldBack {
            line: operands.byte()?,
            kwh: operands.four()?,
        },
        b'G' => Command::Open,
        _ => return None,
    };
    operands.whole(command)
}
