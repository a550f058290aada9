//! A stream that is being answered.

ghost use Rattle.std.specs.Prelude.{◌≡◌, ◌++◌, [], take, IfOk, OnOk, string_bytes};
ghost use Rattle.stream.specs.Spelling.{letter_of};
ghost use Rattle.report.specs.Lines.{answer_text};
ghost use Rattle.reading.specs.Dialogues.{Hears};

use crate::{Placed, next_command};
use auction::Refusal;
use report::{Outcome, Said};
use std::alloc::{AllocError, Global};
use std::fmt::Write;
use stream::Reader;

/// What is left to read of a stream, and the lines that were written so far.
#[derive(Drop)]
pub struct Dialogue<'a> {
    pub reader: Reader<'a>,
    pub lines: String,
}

impl<'a> Dialogue<'a> {
    /// Nothing is read, and nothing said.
    pub fn new(heap: Global, stream: &'a [u8]) -> Dialogue<'a>
        ensures { (result.reader.bytes.now ≡ take 65536 stream.now) × (result.reader.at ≡ 0) × (string_bytes result.lines ≡ []) }
    {
        Dialogue {
            reader: Reader::new(stream),
            lines: String::new(heap),
        }
    }

    /// The next command of the stream; none at the end, or at a fault, whose line is written.
    // No Iterator: a line may find no memory, and the dialogue is spoken to between two commands.
    pub fn next(&mut self) -> Result<Option<Placed>, AllocError>
        ensures kept { self.new.reader.bytes.now ≡ self.old.reader.bytes.now }
        ensures heard { IfOk result (λ read. Hears self.old.reader.bytes.now self.old.reader.at (string_bytes self.old.lines) read self.new.reader.at (string_bytes self.new.lines)) }
    {
        match next_command(&mut self.reader) {
            Ok(read) => Ok(read),
            Err(fault) => {
                write!(self.lines, "{fault}")?;
                Ok(None)
            }
        }
    }

    /// Adds the line of an answer.
    pub fn say(
        &mut self,
        placed: &Placed,
        answer: Result<Outcome, Refusal>,
    ) -> Result<(), AllocError>
        ensures kept { self.new.reader ≡ self.old.reader }
        ensures said { OnOk result (string_bytes self.new.lines ≡ string_bytes self.old.lines ++ answer_text (record { offset = placed.now.offset; letter = letter_of placed.now.command }) answer) }
    {
        let said = Said {
            mark: placed.mark(),
            answer,
        };
        write!(self.lines, "{said}")
    }
}

#[cfg(test)]
mod tests {
    use super::{Dialogue, Outcome};
    use std::test::Fail;

    // A tree of two zones is begun, and the third byte names no command.
    #[test]
    fn a_command_and_a_fault(rt: HostRuntime) -> Result<(), Fail> {
        let mut dialogue = Dialogue::new(rt.alloc(), &[90, 2, 7]);
        let Some(placed) = dialogue.next()? else {
            return Err(Fail::new("no command was read"));
        };
        dialogue.say(&placed, Ok(Outcome::Taken))?;
        assert!(rt; dialogue.next()?.is_none());
        assert_eq!(rt; dialogue.lines.as_str(), "0 Z ok\n2 ? refused 1 0 0\n");
        Ok(())
    }
}
