//! The commands of a sheet.

ghost use Rattle.decoding.specs.Groups.{Reads};
ghost use Rattle.stream.specs.Reading.{sheet_length};

use crate::operands::Operands;
use stream::{Command, Item};

/// A command of a sheet.
pub(crate) fn sheet_command(item: &Item<'_>) -> Option<Command>
    ensures { Reads (sheet_length item.now.letter) item.now.letter item.now.operands.now result }
{
    let mut operands = Operands {
        rest: item.operands,
    };
    let command = match item.letter {
        b'A' => Command::Quantity {
            house: operands.byte()?,
            list: operands.byte()?,
            number: operands.two()?,
            quantity: operands.four()?,
        },
        b'L' => Command::Lambda {
            house: operands.byte()?,
            lambda: operands.four()?.cast_signed(),
        },
        b'M' => Command::ShadowPrice {
            house: operands.byte()?,
            line: operands.byte()?,
            price: operands.four()?,
        },
        _ => return None,
    };
    operands.whole(command)
}
