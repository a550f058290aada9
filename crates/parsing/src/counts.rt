//! Numbers that have to be as many as a command takes.

ghost use Rattle.std.specs.Prelude.{◌≡◌, ◌<◌, length, MatchResult};
ghost use Rattle.parsing.specs.declared.wrong.Wrong.TheVariants.{TooFew, TooMany};

use crate::wrong::Wrong;

/// The numbers, if they are as many as a command takes.
pub(crate) fn exactly<const N: usize>(numbers: &[i64]) -> Result<[i64; N], Wrong>
    ensures { MatchResult result (λ found. (found ≡ numbers.now) × (length numbers.now ≡ N)) (λ e. (e ≡ TooFew → length numbers.now < N) × (e ≡ TooMany → N < length numbers.now)) }
{
    if numbers.len() < N {
        return Err(Wrong::TooFew);
    }
    <[i64; N]>::try_from(numbers).map_err(|_| Wrong::TooMany)
}
