//! A stream on the standard input becomes readable text on the standard output.
#![tactic(auto)]

use notation::to_text;
use piping::pipe;

fn main(rt: HostRuntime) -> anyhow::Result<()> {
    pipe(rt.alloc(), rt.stdin(), &mut rt.stdout(), to_text)
}
