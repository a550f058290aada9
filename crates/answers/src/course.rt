//! The network block of a stream.

ghost use Rattle.std.specs.Prelude.{◌≡◌, [], IfOk, string_bytes};
ghost use Rattle.answers.specs.Courses.{BlockEnded};

use block::Draft;
use ground::Ground;
use reading::Dialogue;
use report::Outcome;
use std::alloc::AllocError;

/// Reads up to the command that opens the box, to the end of the stream, or to a fault.
pub(crate) fn read_block(dialogue: &mut Dialogue<'_>) -> Result<Ground, AllocError>
    requires { (dialogue.old.reader.at ≡ 0) × (string_bytes dialogue.old.lines ≡ []) }
    ensures { IfOk result (λ footing. BlockEnded dialogue.old.reader.bytes.now footing dialogue.new.reader.bytes.now dialogue.new.reader.at (string_bytes dialogue.new.lines)) }
{
    let mut footing = Ground::Base {
        draft: Draft::Nothing,
    };
    'commands: while !footing.is_open() {
        let Some(placed) = dialogue.next()? else {
            return Ok(footing);
        };
        let answer = footing.take(&placed.command);
        dialogue.say(&placed, answer.map(|_| Outcome::Taken))?;
    }
    Ok(footing)
}
