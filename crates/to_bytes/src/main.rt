//! Readable text on the standard input becomes a stream on the standard output.
#![tactic(auto)]

use anyhow::{bail, ensure};
use notation::{TextFault, to_bytes};
use std::io::{Read, Write};

/// A longer text is refused.
const MOST_TEXT: usize = 1048576;

fn main(rt: HostRuntime) -> anyhow::Result<()> {
    let mut text = Vec::new(rt.alloc());
    rt.stdin()
        .take(MOST_TEXT as u64 + 1)
        .read_to_end(&mut text)?;
    ensure!(text.len() <= MOST_TEXT, "the text is too long");
    match to_bytes(rt.alloc(), text.as_slice()) {
        Ok(bytes) => rt.stdout().write_all(bytes.as_slice())?,
        Err(fault @ TextFault::NoMemory) => bail!("{fault}"),
        // The fault has a line of its own, before the error that ends the program.
        Err(fault) => {
            eprintln!(rt; "{fault}")?;
            bail!("no stream");
        }
    }
    Ok(())
}
