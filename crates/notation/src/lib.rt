//! Readable text for streams, and streams for readable text.
#![tactic(auto)]

mod reading;
mod scanning;

ghost use Rattle.std.specs.Prelude.{take, IfOk, string_bytes};
ghost use Rattle.notation.specs.Showing.{Shown};

use decoding::decode;
pub use parsing::reason;
pub use reading::{TextFault, to_bytes};
use std::alloc::{AllocError, Global};
use stream::Reader;
use wording::command_line;

/// The stream's commands in readable text, one to a line; a stream that cannot be read on ends in a comment that says why.
pub fn to_text(heap: Global, stream: &[u8]) -> Result<String, AllocError>
    ensures { IfOk result (λ s. Shown (take 65536 stream.now) (string_bytes s)) }
{
    let mut text = String::new(heap);
    let mut reader = Reader::new(stream);
    // The reader ends in two ways, and each leaves something else to write.
    'items: loop {
        match reader.next() {
            Ok(Some(item)) => {
                // The reader hands on only letters with all their operands.
                let Some(command) = decode(&item) else {
                    unreachable()
                };
                text.push_str(command_line(heap, &command)?.as_str())?;
            }
            Ok(None) => return Ok(text),
            Err(fault) => {
                writeln!(text, "# {fault}")?;
                return Ok(text);
            }
        }
    }
}
