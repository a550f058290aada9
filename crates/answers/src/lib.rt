//! The answers to a stream: a line for each command of its network block, or of the whole.
#![tactic(auto)]

mod course;

ghost use Rattle.std.specs.Prelude.{take, IfOk, string_bytes, OnOk};
ghost use Rattle.one_answer.specs.Power.{power_kinds};
ghost use Rattle.answers.specs.Courses.{BlockAnswered, HoursIfOpened, StreamAnswered};

use crate::course::read_block;
use ground::Ground;
use hours::hear_hours;
use kinds::{Bids, Offers, Transfers};
use listed::Listed;
use network::Network;
use reading::Dialogue;
use std::alloc::{AllocError, Global};

/// The hours over the network that the block gave, if it opened the box.
fn hear(dialogue: &mut Dialogue<'_>, footing: Ground) -> Result<(), AllocError>
    ensures { OnOk result (HoursIfOpened power_kinds footing dialogue.old.reader.bytes.now dialogue.old.reader.at (string_bytes dialogue.old.lines) (string_bytes dialogue.new.lines)) }
{
    if !footing.is_open() {
        return Ok(());
    }
    let (offers, bids, transfers) = (Offers::new(), Bids::new(), Transfers::new());
    // One call, at each type of network.
    match footing {
        Ground::Base { .. } => Ok(()),
        Ground::OverTree { layered } => {
            hear_hours(dialogue, layered.into_network(), offers, bids, transfers)
        }
        Ground::OverTable { layered } => {
            hear_hours(dialogue, layered.into_network(), offers, bids, transfers)
        }
    }
}

/// A line for each command of the network block, up to the one that opens the box.
// The whole stream's answers begin with the same two calls; a function of these two lines would be no plainer.
pub fn answers(heap: Global, stream: &[u8]) -> Result<String, AllocError>
    ensures { IfOk result (λ text. BlockAnswered (take 65536 stream.now) (string_bytes text)) }
{
    let mut dialogue = Dialogue::new(heap, stream);
    read_block(&mut dialogue)?;
    Ok(dialogue.lines)
}

/// A line for each command of the stream: those of the network block, and once it opened the box those of the hours.
pub fn stream_answers(heap: Global, stream: &[u8]) -> Result<String, AllocError>
    ensures { IfOk result (λ text. StreamAnswered power_kinds (take 65536 stream.now) (string_bytes text)) }
{
    let mut dialogue = Dialogue::new(heap, stream);
    let footing = read_block(&mut dialogue)?;
    hear(&mut dialogue, footing)?;
    Ok(dialogue.lines)
}
