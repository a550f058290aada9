//! From commands to the bytes of a stream.
#![tactic(auto)]

ghost use Rattle.std.specs.Prelude.{◌≡◌, ◌++◌, IfOk, OnOk};
ghost use Rattle.encoding.specs.Groups.{Writes};
ghost use Rattle.stream.specs.Reading.{network_length, hour_length, sheet_length};
ghost use Rattle.stream.specs.Spelling.{le16, le32, sensitivities, letter_of, operands_of, spelled};

use auction::bounds::MOST_ZONES;
use std::alloc::{AllocError, Global};
use stream::Command;

/// The bytes of the longest command: a letter, a limit and a row.
const LONGEST: usize = 5 + 2 * MOST_ZONES;

/// Writes a number's two bytes.
// `two` and `four` stay apart: no trait of std joins the number types' `to_le_bytes`, and one of `num_traits` would be a crate for two lines.
#[tactic(auto, unfolding(stream::specs::Spelling::le16))]
fn two(bytes: &mut Vec<u8>, number: u16) -> Result<(), AllocError>
    ensures { OnOk result (bytes.new.items ≡ bytes.old.items ++ le16 number) }
{
    bytes.extend_from_slice(&number.to_le_bytes())
}

/// Writes a number's four bytes.
#[tactic(auto, unfolding(stream::specs::Spelling::le32))]
fn four(bytes: &mut Vec<u8>, number: u32) -> Result<(), AllocError>
    ensures { OnOk result (bytes.new.items ≡ bytes.old.items ++ le32 number) }
{
    bytes.extend_from_slice(&number.to_le_bytes())
}

/// Writes a limit and a row of sensitivities.
fn limit_and_row(bytes: &mut Vec<u8>, limit: u32, row: &[i16; MOST_ZONES]) -> Result<(), AllocError>
    ensures { OnOk result (bytes.new.items ≡ (bytes.old.items ++ le32 limit) ++ sensitivities row.now) }
{
    four(bytes, limit)?;
    for sensitivity in row {
        two(bytes, sensitivity.cast_unsigned())?;
    }
    Ok(())
}

/// Writes an order's house and zones, and then its price and its quantity.
fn order(bytes: &mut Vec<u8>, places: &[u8], price: u32, quantity: u32) -> Result<(), AllocError>
    ensures { OnOk result (bytes.new.items ≡ bytes.old.items ++ (places.now ++ (le32 price ++ le32 quantity))) }
{
    bytes.extend_from_slice(places)?;
    four(bytes, price)?;
    four(bytes, quantity)
}

/// Writes the operands of a command of the network block; nothing of another.
fn network_operands(bytes: &mut Vec<u8>, command: &Command) -> Result<(), AllocError>
    ensures { OnOk result (Writes (network_length (letter_of command.now)) (operands_of command.now) bytes.old.items bytes.new.items) }
{
    match *command {
        Command::Tree { zones } | Command::Table { zones } => bytes.push(zones)?,
        Command::Link {
            parent,
            to_parent,
            to_child,
        } => {
            bytes.push(parent)?;
            four(bytes, to_parent)?;
            four(bytes, to_child)?;
        }
        Command::Row {
            limit,
            sensitivities,
        }
        | Command::Monitor {
            limit,
            sensitivities,
        } => limit_and_row(bytes, limit, &sensitivities)?,
        Command::HoldBack { line, kwh } => {
            bytes.push(line)?;
            four(bytes, kwh)?;
        }
        _ => {}
    }
    Ok(())
}

/// Writes the operands of a command of an hour's orders or of its course; nothing of another.
fn hour_operands(bytes: &mut Vec<u8>, command: &Command) -> Result<(), AllocError>
    ensures { OnOk result (Writes (hour_length (letter_of command.now)) (operands_of command.now) bytes.old.items bytes.new.items) }
{
    match *command {
        Command::Offer {
            house,
            zone,
            price,
            quantity,
        }
        | Command::Bid {
            house,
            zone,
            price,
            quantity,
        } => order(bytes, &[house, zone], price, quantity)?,
        Command::Transfer {
            house,
            first,
            second,
            price,
            quantity,
        } => order(bytes, &[house, first, second], price, quantity)?,
        Command::Withdraw {
            house,
            list,
            number,
        } => {
            bytes.extend_from_slice(&[house, list])?;
            two(bytes, number)?;
        }
        Command::Close { house }
        | Command::Try { house }
        | Command::Settle { house }
        | Command::Void { house } => bytes.push(house)?,
        _ => {}
    }
    Ok(())
}

/// Writes the operands of a command of a sheet; nothing of another.
fn sheet_operands(bytes: &mut Vec<u8>, command: &Command) -> Result<(), AllocError>
    ensures { OnOk result (Writes (sheet_length (letter_of command.now)) (operands_of command.now) bytes.old.items bytes.new.items) }
{
    match *command {
        Command::Quantity {
            house,
            list,
            number,
            quantity,
        } => {
            bytes.extend_from_slice(&[house, list])?;
            two(bytes, number)?;
            four(bytes, quantity)?;
        }
        Command::Lambda { house, lambda } => {
            bytes.push(house)?;
            four(bytes, lambda.cast_unsigned())?;
        }
        Command::ShadowPrice { house, line, price } => {
            bytes.extend_from_slice(&[house, line])?;
            four(bytes, price)?;
        }
        _ => {}
    }
    Ok(())
}

/// The bytes that spell a command.
pub fn encode(heap: Global, command: &Command) -> Result<Vec<u8>, AllocError>
    ensures { IfOk result (λ v. v.items ≡ spelled command.now) }
{
    // Place for all of it at once: a vector that grows at each operand is allocated anew for most commands.
    let mut bytes = Vec::with_capacity(heap, LONGEST)?;
    bytes.push(command.letter())?;
    network_operands(&mut bytes, command)?;
    hour_operands(&mut bytes, command)?;
    sheet_operands(&mut bytes, command)?;
    Ok(bytes)
}
