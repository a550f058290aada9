//! The commands of a stream, one after the other, each with its place, and the lines that answer them.
#![tactic(auto)]

mod dialogue;

ghost use Rattle.std.specs.Prelude.{◌≡◌};
ghost use Rattle.stream.specs.Spelling.{letter_of};
ghost use Rattle.reading.specs.Next.{Next};

use decoding::decode;
pub use dialogue::Dialogue;
use report::{Mark, StreamFault};
use stream::{Command, Reader};

/// A command, and where it stands in the stream.
#[derive(Clone, Copy, Debug, PartialEq, Eq)]
pub struct Placed {
    pub offset: usize,
    pub command: Command,
}

impl Placed {
    /// How the command's line begins.
    pub fn mark(&self) -> Mark
        ensures { result ≡ record { offset = self.now.offset; letter = letter_of self.now.command } }
    {
        Mark {
            offset: self.offset,
            letter: self.command.letter(),
        }
    }
}

/// The next command of the stream; none at the end.
#[tactic(auto, using(stream::proofs::Standing::longer))]
pub fn next_command(reader: &mut Reader<'_>) -> Result<Option<Placed>, StreamFault>
    ensures { Next reader.old.bytes.now reader.old.at result reader.new.bytes.now reader.new.at }
{
    let Some(item) = reader.next()? else {
        return Ok(None);
    };
    let Some(command) = decode(&item) else {
        // The reader hands on only letters with all their operands.
        unreachable()
    };
    Ok(Some(Placed {
        offset: item.offset,
        command,
    }))
}
