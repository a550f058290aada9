//! The parts of a readable text: commands, words and numbers.

ghost use Rattle.std.specs.Prelude.{◌≡◌, ℕ, ◌≤◌, Bool, length, IfOk};
ghost use Rattle.notation.specs.Scanning.{is_blank, ends_command, FirstStop};
ghost use Rattle.notation.specs.Writing.{IsNumber};

use parsing::Wrong;

pub fn is_blank(byte: u8) -> bool
    ensures { result ≡ is_blank byte }
{
    matches!(byte, b' ' | b'\t' | b'\r')
}

pub fn ends_command(byte: u8) -> bool
    ensures { result ≡ ends_command byte }
{
    matches!(byte, b';' | b'\n' | b'#')
}

/// The first place from `at` on at which the text stops, or its end.
pub fn find_from<F: Fn(u8) -> bool>(text: &[u8], at: usize, stops: F) -> usize
    requires { F.IsAlwaysCallable stops }
    ensures within { (at ≤ result) × (at ≤ length text.now → result ≤ length text.now) }
    ensures first { (stops_at : ℕ → Bool) → ((byte : ℕ) (answer : Bool) → F.post stops byte answer → answer ≡ stops_at byte) → FirstStop text.now at stops_at result }
{
    let Some(rest) = text.get(at..) else {
        return at;
    };
    match rest.iter().position(|byte| stops(*byte)) {
        Some(onward) => at + onward,
        None => text.len(),
    }
}

/// The number that a word writes.
pub fn number(word: &[u8]) -> Result<i64, Wrong>
    ensures { IfOk result (λ n. IsNumber word.now n) }
{
    let text = std::str::from_utf8(word).map_err(|_| Wrong::NoNumber)?;
    text.parse().map_err(|_| Wrong::NoNumber)
}
