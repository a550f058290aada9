//! From a letter and the numbers that follow it to the command that they mean.
#![tactic(auto)]

mod counts;
mod rows;
mod wrong;

ghost use Rattle.std.specs.Prelude.{IfOk};
ghost use Rattle.parsing.specs.Numbers.{Means};

use crate::counts::exactly;
use crate::rows::limit_and_row;
use stream::Command;
pub use wrong::{Wrong, reason};

/// The command that a letter and numbers mean.
// Three groups, those of the format, as in `stream::lengths`. Not one reader with decoding's: here the count is asked before the widths, and a fault says which.
pub fn command(letter: u8, numbers: &[i64]) -> Result<Command, Wrong>
    ensures { IfOk result (λ command. Means letter numbers.now command) }
{
    match letter {
        b'Z' | b'Y' | b'K' | b'R' | b'V' | b'H' | b'G' => network_command(letter, numbers),
        b'A' | b'L' | b'M' => sheet_command(letter, numbers),
        _ => hour_command(letter, numbers),
    }
}

/// A command of the network block.
fn network_command(letter: u8, numbers: &[i64]) -> Result<Command, Wrong>
    ensures { IfOk result (λ command. Means letter numbers.now command) }
{
    match letter {
        b'Z' => {
            let [zones] = exactly::<1>(numbers)?;
            Ok(Command::Tree {
                zones: zones.try_into()?,
            })
        }
        b'Y' => {
            let [zones] = exactly::<1>(numbers)?;
            Ok(Command::Table {
                zones: zones.try_into()?,
            })
        }
        b'K' => {
            let [parent, to_parent, to_child] = exactly::<3>(numbers)?;
            Ok(Command::Link {
                parent: parent.try_into()?,
                to_parent: to_parent.try_into()?,
                to_child: to_child.try_into()?,
            })
        }
        b'R' => {
            let (limit, sensitivities) = limit_and_row(numbers)?;
            Ok(Command::Row {
                limit,
                sensitivities,
            })
        }
        b'V' => {
            let (limit, sensitivities) = limit_and_row(numbers)?;
            Ok(Command::Monitor {
                limit,
                sensitivities,
            })
        }
        b'H' => {
            let [line, kwh] = exactly::<2>(numbers)?;
            Ok(Command::HoldBack {
                line: line.try_into()?,
                kwh: kwh.try_into()?,
            })
        }
        b'G' => {
            let [] = exactly::<0>(numbers)?;
            Ok(Command::Open)
        }
        _ => Err(Wrong::NoCommand),
    }
}

/// A command of an hour's orders or of its course.
fn hour_command(letter: u8, numbers: &[i64]) -> Result<Command, Wrong>
    ensures { IfOk result (λ command. Means letter numbers.now command) }
{
    match letter {
        b'O' => {
            let [house, zone, price, quantity] = exactly::<4>(numbers)?;
            Ok(Command::Offer {
                house: house.try_into()?,
                zone: zone.try_into()?,
                price: price.try_into()?,
                quantity: quantity.try_into()?,
            })
        }
        b'B' => {
            let [house, zone, price, quantity] = exactly::<4>(numbers)?;
            Ok(Command::Bid {
                house: house.try_into()?,
                zone: zone.try_into()?,
                price: price.try_into()?,
                quantity: quantity.try_into()?,
            })
        }
        b'T' => {
            let [house, first, second, price, quantity] = exactly::<5>(numbers)?;
            Ok(Command::Transfer {
                house: house.try_into()?,
                first: first.try_into()?,
                second: second.try_into()?,
                price: price.try_into()?,
                quantity: quantity.try_into()?,
            })
        }
        b'W' => {
            let [house, list, number] = exactly::<3>(numbers)?;
            Ok(Command::Withdraw {
                house: house.try_into()?,
                list: list.try_into()?,
                number: number.try_into()?,
            })
        }
        b'C' => {
            let [house] = exactly::<1>(numbers)?;
            Ok(Command::Close {
                house: house.try_into()?,
            })
        }
        b'Q' => {
            let [house] = exactly::<1>(numbers)?;
            Ok(Command::Try {
                house: house.try_into()?,
            })
        }
        b'S' => {
            let [house] = exactly::<1>(numbers)?;
            Ok(Command::Settle {
                house: house.try_into()?,
            })
        }
        b'X' => {
            let [house] = exactly::<1>(numbers)?;
            Ok(Command::Void {
                house: house.try_into()?,
            })
        }
        _ => Err(Wrong::NoCommand),
    }
}

/// A command of a sheet.
fn sheet_command(letter: u8, numbers: &[i64]) -> Result<Command, Wrong>
    ensures { IfOk result (λ command. Means letter numbers.now command) }
{
    match letter {
        b'A' => {
            let [house, list, number, quantity] = exactly::<4>(numbers)?;
            Ok(Command::Quantity {
                house: house.try_into()?,
                list: list.try_into()?,
                number: number.try_into()?,
                quantity: quantity.try_into()?,
            })
        }
        b'L' => {
            let [house, lambda] = exactly::<2>(numbers)?;
            Ok(Command::Lambda {
                house: house.try_into()?,
                lambda: lambda.try_into()?,
            })
        }
        b'M' => {
            let [house, line, price] = exactly::<3>(numbers)?;
            Ok(Command::ShadowPrice {
                house: house.try_into()?,
                line: line.try_into()?,
                price: price.try_into()?,
            })
        }
        _ => Err(Wrong::NoCommand),
    }
}
