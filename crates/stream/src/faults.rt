//! What a program that reports a fault of the reader needs of it.

ghost use Rattle.std.specs.Prelude.{◌≡◌, Some};
ghost use Rattle.stream.specs.Faults.{offset_of, shown_letter, refused_as, fault_words};

use crate::reader::ReadFault;
use auction::Refusal;
use std::error::Error;
use std::fmt;

/// Stands for the letter where a byte names no command.
const NO_LETTER: u8 = b'?';

impl ReadFault {
    /// Where the stream could not be read.
    pub fn offset(self) -> usize
        ensures { result ≡ offset_of self }
    {
        match self {
            ReadFault::UnknownByte { offset } | ReadFault::MissingOperands { offset, .. } => offset,
        }
    }

    /// The letter to show; `?` for a byte that is none.
    pub fn letter(self) -> u8
        ensures { result ≡ shown_letter self }
    {
        match self {
            ReadFault::UnknownByte { .. } => NO_LETTER,
            ReadFault::MissingOperands { letter, .. } => letter,
        }
    }
}

impl From<ReadFault> for Refusal {
    ghost from_gives = { λ fault refusal. refusal ≡ refused_as fault };

    fn from(fault: ReadFault) -> Refusal {
        match fault {
            ReadFault::UnknownByte { .. } => Refusal::NoCommand,
            ReadFault::MissingOperands { .. } => Refusal::NoOperands,
        }
    }
}

impl fmt::Display for ReadFault {
    ghost output = { λ fault. Some (fault_words fault) };

    fn fmt<W: fmt::Write>(&self, f: &mut fmt::Formatter<W>) -> fmt::Result {
        match *self {
            ReadFault::UnknownByte { offset } => write!(f, "unknown byte at offset {offset}"),
            ReadFault::MissingOperands { offset, .. } => {
                write!(f, "missing operands at offset {offset}")
            }
        }
    }
}

impl Error for ReadFault {}
