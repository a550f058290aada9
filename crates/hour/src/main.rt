//! Reads a stream on the standard input and prints a line for each command.
#![tactic(auto)]

use answers::answers;
use piping::pipe;

fn main(rt: HostRuntime) -> anyhow::Result<()> {
    pipe(rt.alloc(), rt.stdin(), &mut rt.stdout(), answers)
}
