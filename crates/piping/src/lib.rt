//! A program that makes text of its whole input.
#![tactic(auto)]

ghost use Rattle.std.specs.Prelude.{take, IfSome, OnOk};
ghost use Rattle.piping.specs.Whole.{Answered};

use std::alloc::{AllocError, Global};
use std::io::{Read, Write};
use stream::MOST_BYTES;

/// Reads no more than the longest stream has, and writes the text that `answer` makes of it.
pub fn pipe<R: Read + Drop, W: Write, F: FnOnce(Global, &[u8]) -> Result<String, AllocError>>(
    heap: Global,
    input: R,
    output: &mut W,
    answer: F,
) -> anyhow::Result<()>
    requires { F.IsAlwaysCallable answer }
    ensures { OnOk result (IfSome (R.remaining input) (λ given. Answered F.FnOnce answer heap (take 65536 given) (W.contents output.old) (W.contents output.new))) }
{
    let mut bytes = Vec::new(heap);
    input.take(MOST_BYTES as u64).read_to_end(&mut bytes)?;
    let text = answer(heap, bytes.as_slice())?;
    output.write_all(text.as_bytes())?;
    Ok(())
}

#[cfg(test)]
mod tests {
    use super::{AllocError, Global, pipe};
    use std::test::Fail;

    // The bytes as text, twice.
    fn doubled(heap: Global, bytes: &[u8]) -> Result<String, AllocError> {
        let text = str::from_utf8(bytes).unwrap_or_default();
        format!(in heap; "{text}{text}")
    }

    // What was written before stays, and what the function answers follows.
    #[test]
    fn from_memory_to_memory(rt: HostRuntime) -> Result<(), Fail> {
        let mut written = vec![in rt.alloc(); b'>']?;
        let Ok(()) = pipe(rt.alloc(), &b"ab"[..], &mut written, doubled) else {
            return Err(Fail::new("the input could not be piped"));
        };
        assert!(rt; written.as_slice() == b">abab".as_slice());
        Ok(())
    }
}
