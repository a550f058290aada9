//! How a list is made, grows and changes.

ghost use Rattle.std.specs.Prelude.{◌≡◌, ◌<◌, [], ◌∷◌, ◌++◌, IfOk, length, replicate, slice_set};
ghost use Rattle.auction.specs.Refusals.{Always, Answered};
ghost use Rattle.filled.specs.Lists.{kept};

use super::Filled;
use auction::Fault;

impl<T: Copy, const N: usize> Filled<T, N> {
    /// No item yet; every place holds `blank`, which nobody reads.
    pub fn new(blank: T) -> Filled<T, N>
        ensures empty { kept result ≡ [] }
        ensures places { result.rows ≡ replicate N blank }
    {
        Filled {
            count: 0,
            rows: [blank; N],
        }
    }

    /// Adds an item after the others: refused where no place is left, and then no place changes (`slice_set` past the end writes nothing).
    pub fn push(&mut self, item: T) -> Result<(), Fault>
        ensures added { Answered result Always Always (length (kept self.old) < N) (λ _. kept self.new ≡ kept self.old ++ item ∷ []) (self.new ≡ self.old) }
        ensures places { self.new.rows ≡ slice_set self.old.rows self.old.count item }
    {
        if self.count >= N {
            return Err(Fault::NoPlace);
        }
        self.rows[self.count] = item;
        self.count += 1;
        Ok(())
    }

    /// Puts another item in the place of the one at an index: refused where there is none.
    pub fn set(&mut self, index: usize, item: T) -> Result<(), Fault>
        ensures changed { Answered result (index < length (kept self.old)) Always Always (λ _. kept self.new ≡ slice_set (kept self.old) index item) (self.new ≡ self.old) }
        ensures places { IfOk result (λ _. self.new.rows ≡ slice_set self.old.rows index item) }
    {
        if index >= self.count {
            return Err(Fault::Missing);
        }
        self.rows[index] = item;
        Ok(())
    }

    /// Lets go of all items.
    pub fn clear(&mut self)
        ensures empty { kept self.new ≡ [] }
        ensures places { self.new.rows ≡ self.old.rows }
    {
        self.count = 0;
    }
}
