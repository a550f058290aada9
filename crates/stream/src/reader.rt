//! The reader: cuts a stream into items, a letter with its operands.

ghost use Rattle.std.specs.Prelude.{◌≡◌, ◌+◌, ◌≤◌, length, take, MatchOption, MatchResult};
ghost use Rattle.stream.specs.Reading.{Stands};
ghost use Rattle.stream.specs.Faults.{Faulty};

use crate::lengths::operand_length;

/// A longer stream is treated as cut off there.
pub const MOST_BYTES: usize = 65536;

/// A letter that stands at an offset of the stream, with its operands.
#[derive(Clone, Copy, Debug, PartialEq, Eq)]
pub struct Item<'a> {
    pub offset: usize,
    pub letter: u8,
    pub operands: &'a [u8],
}

/// Why a stream is read no further.
#[derive(Clone, Copy, Debug, PartialEq, Eq)]
pub enum ReadFault {
    /// The byte at the offset names no command.
    UnknownByte { offset: usize },
    /// The stream ends before the letter's operands do.
    MissingOperands { offset: usize, letter: u8 },
}

/// Reads a stream item by item.
#[derive(Clone, Copy, Debug, PartialEq, Eq)]
pub struct Reader<'a> {
    bytes: &'a [u8],
    at: usize,
}

impl<'a> Reader<'a> {
    /// A reader at the start of the stream.
    #[tactic(auto, using(std::proofs::lemmas::List::take_min))]
    pub fn new(stream: &'a [u8]) -> Reader<'a>
        ensures { (result.bytes.now ≡ take 65536 stream.now) × (result.at ≡ 0) }
    {
        Reader {
            bytes: &stream[..MOST_BYTES.min(stream.len())],
            at: 0,
        }
    }

    /// The next item; none at the end. After a fault the stream is read no further: the reader stands at its end.
    // No `Iterator`: a reader is `Copy`, so a `for` would read a copy, and leave the reader itself where it stood.
    pub fn next(&mut self) -> Result<Option<Item<'a>>, ReadFault>
        ensures kept { self.new.bytes.now ≡ self.old.bytes.now }
        ensures read { MatchResult result (λ o. MatchOption o ((length self.old.bytes.now ≤ self.old.at) × (self.new.at ≡ self.old.at)) (λ item. (item.offset ≡ self.old.at) × Stands self.old.bytes.now self.old.at item.letter item.operands.now self.new.at)) (λ fault. Faulty self.old.bytes.now self.old.at fault × (self.new.at ≡ length self.old.bytes.now)) }
    {
        let offset = self.at;
        let Some(&letter) = self.bytes.get(offset) else {
            return Ok(None);
        };
        let rest = &self.bytes[offset + 1..];
        self.at = self.bytes.len();
        let wanted = operand_length(letter).ok_or(ReadFault::UnknownByte { offset })?;
        let operands = rest
            .get(..wanted)
            .ok_or(ReadFault::MissingOperands { offset, letter })?;
        self.at = offset + 1 + wanted;
        Ok(Some(Item {
            offset,
            letter,
            operands,
        }))
    }
}
