//! The commands of an hour's orders and of its course.

ghost use Rattle.decoding.specs.Groups.{Reads};
ghost use Rattle.stream.specs.Reading.{hour_length};

use crate::operands::Operands;
use stream::{Command, Item};

/// A command of an hour's orders or of its course.
pub(crate) fn hour_command(item: &Item<'_>) -> Option<Command>
    ensures { Reads (hour_length item.now.letter) item.now.letter item.now.operands.now result }
{
    let mut operands = Operands {
        rest: item.operands,
    };
    let house = operands.byte()?;
    let command = match item.letter {
        b'O' => Command::Offer {
            house,
            zone: operands.byte()?,
            price: operands.four()?,
            quantity: operands.four()?,
        },
        b'B' => Command::Bid {
            house,
            zone: operands.byte()?,
            price: operands.four()?,
            quantity: operands.four()?,
        },
        b'T' => Command::Transfer {
            house,
            first: operands.byte()?,
            second: operands.byte()?,
            price: operands.four()?,
            quantity: operands.four()?,
        },
        b'W' => Command::Withdraw {
            house,
            list: operands.byte()?,
            number: operands.two()?,
        },
        b'C' => Command::Close { house },
        b'Q' => Command::Try { house },
        b'S' => Command::Settle { house },
        b'X' => Command::Void { house },
        _ => return None,
    };
    operands.whole(command)
}
