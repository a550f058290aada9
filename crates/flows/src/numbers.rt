//! Sums of whole numbers that stay small.

ghost use Rattle.std.specs.Prelude.{◌≡◌, ℕ, ℤ, ◌^◌, ◌<◌, ◌≤◌, ◌*ℤ◌, unsigned_abs};
ghost use Rattle.auction.specs.Sums.{Σ, Σℕ};
ghost use Rattle.flows.specs.Totals.{Modest, TermsAre, Within};

/// The sum of so many terms, which are worked out one by one.
pub(crate) fn sum_of<F: Fn(usize) -> i64>(count: usize, term: F) -> i64
    requires callable { (i : ℕ) → i < count → F.pre term i }
    requires modest { Modest (F.post term) count }
    ensures value { (f : ℕ → ℤ) → TermsAre (F.post term) count f → result ≡ Σ count f }
    ensures bound { (size : ℕ → ℕ) → Within (F.post term) count size → unsigned_abs result ≤ Σℕ count size }
{
    let mut total: i64 = 0;
    // A loop: the library's sum asks that the total fits, which only the bounds of the terms say.
    for i in 0..count {
        total += term(i);
    }
    total
}
