//! The numbers of a row: its limit, and up to as many sensitivities as there may be zones.

ghost use Rattle.std.specs.Prelude.{◌≡◌, ◌-◌, ◌∷◌, ◌++◌, length, replicate, pos, IfOk};

use crate::wrong::Wrong;
use auction::bounds::MOST_ZONES;

/// A limit and a row; sensitivities of 0 may be left out at the end.
pub(crate) fn limit_and_row(numbers: &[i64]) -> Result<(u32, [i16; MOST_ZONES]), Wrong>
    ensures { IfOk result (λ p. numbers.now ++ replicate (25 - length numbers.now) (pos 0) ≡ pos p.0 ∷ p.1) }
{
    let (limit, given) = numbers.split_first().ok_or(Wrong::TooFew)?;
    if given.len() > MOST_ZONES {
        return Err(Wrong::TooMany);
    }
    let limit = u32::try_from(*limit)?;
    let mut row = [0; MOST_ZONES];
    row[..given.len()].copy_from_slice(given);
    Ok((limit, row.try_map(|number| i16::try_from(number))?))
}
