//! How many bytes of operands follow each letter.

ghost use Rattle.std.specs.Prelude.{◌≡◌};
ghost use Rattle.stream.specs.Reading.{network_length, hour_length, sheet_length, operand_length};
ghost use Rattle.stream.specs.Letters.{SpelledStands};

/// How many bytes of operands follow a letter; none for a byte that names no command.
#[tactic(auto, unfolding(crate::specs::Reading::operand_length))]
pub fn operand_length(letter: u8) -> Option<usize>
    ensures { result ≡ operand_length letter }
{
    network_length(letter)
        .or(hour_length(letter))
        .or(sheet_length(letter))
}

// Three tables: they mirror the three of specs/Reading, which decoding and encoding follow.
fn network_length(letter: u8) -> Option<usize>
    ensures { result ≡ network_length letter }
{
    match letter {
        b'Z' | b'Y' => Some(1),
        b'K' => Some(9),
        b'R' | b'V' => Some(52),
        b'H' => Some(5),
        b'G' => Some(0),
        _ => None,
    }
}

fn hour_length(letter: u8) -> Option<usize>
    ensures { result ≡ hour_length letter }
{
    match letter {
        b'O' | b'B' => Some(10),
        b'T' => Some(11),
        b'W' => Some(4),
        b'C' | b'Q' | b'S' | b'X' => Some(1),
        _ => None,
    }
}

fn sheet_length(letter: u8) -> Option<usize>
    ensures { result ≡ sheet_length letter }
{
    match letter {
        b'A' => Some(8),
        b'L' => Some(5),
        b'M' => Some(6),
        _ => None,
    }
}

/// Every command is read as it is spelled: this function stands for the law that its contract states.
pub fn letters_stand()
    ensures { SpelledStands }
{}
