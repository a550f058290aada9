//! A command in readable text.
#![tactic(auto)]

ghost use Rattle.std.specs.Prelude.{◌≡◌, ◌<◌, ◌∷◌, pos, Some, flat_map, IfOk, string_bytes};
ghost use Rattle.wording.specs.Texts.{after_blank, after_blanks, text_of};

use auction::bounds::MOST_ZONES;
use std::alloc::{AllocError, Global};
use std::fmt;
use stream::Command;

/// Most lines have no more bytes.
const USUAL_LINE: usize = 32;

/// Numbers with a blank before each.
#[derive(Clone, Copy)]
struct Numbers<'a>(&'a [i64]);

impl fmt::Display for Numbers<'_> {
    ghost output = { λ numbers. Some (flat_map after_blank numbers.0.now) };

    fn fmt<W: fmt::Write>(&self, f: &mut fmt::Formatter<W>) -> fmt::Result {
        for number in self.0 {
            f.write_str(" ")?;
            f.write(*number)?;
        }
        Ok(())
    }
}

/// A letter and its numbers on a line of their own.
#[tactic(auto, using(crate::proofs::Blanks::ended, std::proofs::lemmas::Str::encode_ascii))]
fn text_line(heap: Global, letter: u8, numbers: &[i64]) -> Result<String, AllocError>
    requires { letter < 128 }
    ensures { IfOk result (λ s. string_bytes s ≡ letter ∷ after_blanks numbers.now) }
{
    // The letter by `push`: as a hole of a format it goes through a formatter of its own, for each line. Most lines fit without growing.
    let mut line = String::with_capacity(heap, USUAL_LINE)?;
    line.push(char::from(letter))?;
    writeln!(line, "{}", Numbers(numbers))?;
    Ok(line)
}

/// A letter, a limit and a row of sensitivities on a line of their own.
#[tactic(auto, using(crate::proofs::Blanks::ended, std::proofs::lemmas::Str::encode_ascii))]
fn row_line(
    heap: Global,
    letter: u8,
    limit: u32,
    row: &[i16; MOST_ZONES],
) -> Result<String, AllocError>
    requires { letter < 128 }
    ensures { IfOk result (λ s. string_bytes s ≡ letter ∷ after_blanks (pos limit ∷ row.now)) }
{
    let letter = char::from(letter);
    let row = row.map(|sensitivity| i64::from(sensitivity));
    let row = Numbers(&row);
    format!(in heap; "{letter} {limit}{row}\n")
}

/// A command on a line of its own.
// Not one table with encoding's `encode`: there each operand has a width in bytes, here each is a decimal number.
pub fn command_line(heap: Global, command: &Command) -> Result<String, AllocError>
    ensures { IfOk result (λ s. string_bytes s ≡ text_of command.now) }
{
    let letter = command.letter();
    match *command {
        Command::Open => text_line(heap, letter, &[]),
        Command::Tree { zones: number }
        | Command::Table { zones: number }
        | Command::Close { house: number }
        | Command::Try { house: number }
        | Command::Settle { house: number }
        | Command::Void { house: number } => text_line(heap, letter, &[number.into()]),
        Command::Link {
            parent,
            to_parent,
            to_child,
        } => text_line(
            heap,
            letter,
            &[parent.into(), to_parent.into(), to_child.into()],
        ),
        Command::Row {
            limit,
            sensitivities,
        }
        | Command::Monitor {
            limit,
            sensitivities,
        } => row_line(heap, letter, limit, &sensitivities),
        Command::HoldBack { line, kwh } => text_line(heap, letter, &[line.into(), kwh.into()]),
        Command::Offer {
            house,
            zone,
            price,
            quantity,
        }
        | Command::Bid {
            house,
            zone,
            price,
            quantity,
        } => text_line(
            heap,
            letter,
            &[house.into(), zone.into(), price.into(), quantity.into()],
        ),
        Command::Transfer {
            house,
            first,
            second,
            price,
            quantity,
        } => text_line(
            heap,
            letter,
            &[
                house.into(),
                first.into(),
                second.into(),
                price.into(),
                quantity.into(),
            ],
        ),
        Command::Withdraw {
            house,
            list,
            number,
        } => text_line(heap, letter, &[house.into(), list.into(), number.into()]),
        Command::Quantity {
            house,
            list,
            number,
            quantity,
        } => text_line(
            heap,
            letter,
            &[house.into(), list.into(), number.into(), quantity.into()],
        ),
        Command::Lambda { house, lambda } => text_line(
            heap,
            letter,
            &[house.into(), lambda.into()],
        ),
        Command::ShadowPrice { house, line, price } => text_line(
            heap,
            letter,
            &[house.into(), line.into(), price.into()],
        ),
    }
}
