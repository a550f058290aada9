//! Reads a stream on the standard input and prints a line for each command, those of the hours too.
#![tactic(auto)]

use answers::stream_answers;
use piping::pipe;

fn main(rt: HostRuntime) -> anyhow::Result<()> {
    pipe(rt.alloc(), rt.stdin(), &mut rt.stdout(), stream_answers)
}
