//! What may be wrong with a command.

ghost use Rattle.std.specs.Prelude.{◌≡◌, Some};
ghost use Rattle.parsing.specs.declared.wrong.Wrong.TheVariants.{DoesNotFit};
ghost use Rattle.parsing.specs.Reasons.{in_words};

use std::error::Error;
use std::fmt;
use std::num::TryFromIntError;

/// What is wrong with a command as it is written down.
#[derive(Clone, Copy, Debug, PartialEq, Eq)]
pub enum Wrong {
    /// A word that should be a letter is none that names a command.
    NoCommand,
    /// A word that should be a number is none.
    NoNumber,
    /// The command has fewer operands than it needs.
    TooFew,
    /// The command has more operands than it takes.
    TooMany,
    /// A number does not fit the operand's width.
    DoesNotFit,
}

/// In words, what is wrong with a command as it is written down.
pub fn reason(wrong: Wrong) -> &'static str
    ensures { result.now ≡ in_words wrong }
{
    match wrong {
        Wrong::NoCommand => "no command has this name",
        Wrong::NoNumber => "an operand is no number",
        Wrong::TooFew => "operands are missing",
        Wrong::TooMany => "there are too many operands",
        Wrong::DoesNotFit => "an operand does not fit its width",
    }
}

impl fmt::Display for Wrong {
    ghost output = { λ wrong. Some (in_words wrong) };

    fn fmt<W: fmt::Write>(&self, f: &mut fmt::Formatter<W>) -> fmt::Result {
        f.write_str(reason(*self))
    }
}

impl Error for Wrong {}

impl From<TryFromIntError> for Wrong {
    ghost from_gives = { λ _ wrong. wrong ≡ DoesNotFit };

    fn from(_error: TryFromIntError) -> Wrong {
        Self::DoesNotFit
    }
}
