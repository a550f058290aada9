//! What the program says of each command: that it was taken, or why and where it was refused.
#![tactic(auto)]

ghost use Rattle.std.specs.Prelude.{◌≡◌, Some};
ghost use Rattle.stream.specs.Faults.{offset_of, shown_letter, refused_as};
ghost use Rattle.report.specs.Lines.{mark_text, stream_fault, refused_text, line_text};

use auction::{PerHouse, Refusal};
use std::fmt;
use stream::{Item, ReadFault};

/// Where a command begins in the stream, and its letter.
#[derive(Clone, Copy, Debug, PartialEq, Eq)]
pub struct Mark {
    pub offset: usize,
    pub letter: u8,
}

impl Mark {
    /// The refusal of the command that has this mark.
    pub fn refused(self, refusal: Refusal) -> StreamFault
        ensures { result ≡ stream_fault self.offset self.letter refusal }
    {
        StreamFault {
            mark: self,
            refusal,
        }
    }
}

impl From<&Item<'_>> for Mark {
    ghost from_gives = { λ item mark. mark ≡ record { offset = item.now.offset; letter = item.now.letter } };

    fn from(item: &Item<'_>) -> Mark {
        Mark {
            offset: item.offset,
            letter: item.letter,
        }
    }
}

/// The offset and the letter, as a line begins.
impl fmt::Display for Mark {
    ghost output = { λ mark. Some (mark_text mark.offset mark.letter) };

    fn fmt<W: fmt::Write>(&self, f: &mut fmt::Formatter<W>) -> fmt::Result {
        let offset = self.offset;
        let letter = char::from(self.letter);
        write!(f, "{offset} {letter}")
    }
}

/// A refusal met in the stream: of which command, and why.
#[derive(Clone, Copy, Debug, PartialEq, Eq)]
pub struct StreamFault {
    pub mark: Mark,
    pub refusal: Refusal,
}

impl From<ReadFault> for StreamFault {
    ghost from_gives = { λ fault r. r ≡ stream_fault (offset_of fault) (shown_letter fault) (refused_as fault) };

    fn from(fault: ReadFault) -> StreamFault {
        let mark = Mark {
            offset: fault.offset(),
            letter: fault.letter(),
        };
        mark.refused(Refusal::from(fault))
    }
}

/// The line for a command that was refused, with its end of line.
impl fmt::Display for StreamFault {
    ghost output = { λ fault. Some (refused_text fault) };

    fn fmt<W: fmt::Write>(&self, f: &mut fmt::Formatter<W>) -> fmt::Result {
        let mark = self.mark;
        let number = self.refusal.number();
        let (first, second) = self.refusal.place();
        writeln!(f, "{mark} refused {number} {first} {second}")
    }
}

/// What a command that was taken brought about.
#[derive(Clone, Copy, Debug, PartialEq, Eq)]
pub enum Outcome {
    Taken,
    /// A sheet was accepted: its welfare and rent, and both accounts after the call.
    Accepted {
        welfare: i64,
        rent: i64,
        accounts: PerHouse<i128>,
    },
}

/// What is said of a command: what it brought about, or why it was refused.
#[derive(Clone, Copy, Debug, PartialEq, Eq)]
pub struct Said {
    pub mark: Mark,
    pub answer: Result<Outcome, Refusal>,
}

/// The line that says it, with its end of line.
impl fmt::Display for Said {
    ghost output = { λ said. Some (line_text said) };

    fn fmt<W: fmt::Write>(&self, f: &mut fmt::Formatter<W>) -> fmt::Result {
        let mark = self.mark;
        match self.answer {
            Ok(Outcome::Taken) => writeln!(f, "{mark} ok"),
            Ok(
                Outcome::Accepted {
                    welfare,
                    rent,
                    accounts,
                },
            ) => {
                let PerHouse { zero, one } = accounts;
                writeln!(f, "{mark} accepted {welfare} {rent} {zero} {one}")
            }
            Err(refusal) => mark.refused(refusal).fmt(f),
        }
    }
}
