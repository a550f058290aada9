//! A network of which some capacity is held back.

ghost use Rattle.std.specs.Prelude.{◌≡◌, ℕ, ◌-◌, ◌<◌, ◌≤◌, [], ◌∷◌, ◌++◌, replicate, slice_index, slice_set, unsigned_abs};
ghost use Rattle.auction.specs.Grids.{line_count, limit_at, sensitivity_at};
ghost use Rattle.auction.specs.Bounds.{most_lines, most_kwh, most_sensitivity};
ghost use Rattle.network.specs.Bounds.{OfZones, NumbersInRange};
ghost use Rattle.network.specs.Rows.{line_of, lines_in};
ghost use Rattle.layers.specs.Watched.{PlaceLeft};
ghost use Rattle.layers.specs.Layers.{held_grid, monitored_grid};
ghost use Rattle.auction.specs.Refusals.{Always, Answered};
ghost use Rattle.layers.specs.Lowered.{Holds, HoldsNothing};
ghost use Rattle.layers.specs.Holding.{held_few_lines, held_limited, held_sensitive};

use super::amounts::Amounts;
use super::monitored::Monitored;
use auction::Fault;
use auction::bounds::{MOST_KWH, MOST_LINES, MOST_ZONES};
use network::Network;

impl Amounts {
    fn none() -> Amounts
        ensures { result.kwh ≡ replicate most_lines 0 }
    {
        Amounts {
            kwh: [0; MOST_LINES],
        }
    }

    /// What is left of a line's limit.
    fn lower(&self, line: usize, limit: u32) -> u32
        ensures { result ≡ limit - slice_index self.now.kwh line }
    {
        limit.saturating_sub(self.kwh.get(line).copied().unwrap_or(0))
    }

    fn hold(&mut self, line: usize, kwh: u32)
        requires { line < most_lines }
        ensures { self.new.kwh ≡ slice_set self.old.kwh line kwh }
    {
        self.kwh[line] = kwh;
    }
}

// The network below is held by value: no memory is asked for.
/// Each line's limit is lowered by the amount that is held back of it, to no less than 0.
#[derive(Clone, Copy)]
pub struct HeldBack<N> {
    below: N,
    amounts: Amounts,
}

impl<N: Network> HeldBack<N> {
    /// Holds nothing back yet.
    pub fn new(below: N) -> HeldBack<N>
        ensures kept { result.below ≡ below }
        ensures zeros { result.amounts.kwh ≡ replicate most_lines 0 }
        ensures nothing { HoldsNothing (N.Network.grid below) (held_grid N.Network.grid result) }
    {
        let amounts = Amounts::none();
        HeldBack { below, amounts }
    }

    /// The network below, of which only the limits are lowered.
    pub fn below(&self) -> &N
        ensures below { result.now ≡ self.now.below }
        ensures lines { line_count (held_grid N.Network.grid self.now) ≡ line_count (N.Network.grid result.now) }
        ensures limits { (l : ℕ) → limit_at (held_grid N.Network.grid self.now) l ≡ limit_at (N.Network.grid result.now) l - slice_index self.now.amounts.kwh l }
        ensures sensitivities { (l z : ℕ) → sensitivity_at (held_grid N.Network.grid self.now) l z ≡ sensitivity_at (N.Network.grid result.now) l z }
    {
        &self.below
    }

    /// Holds so much back of a line from now on: refused where there is no such line, else where the amount is out of range.
    pub fn hold_back(&mut self, line: usize, kwh: u32) -> Result<(), Fault>
        ensures { Answered result (line < line_count (N.Network.grid self.old.below)) (kwh ≤ most_kwh) Always (λ _. (self.new.below ≡ self.old.below) × Holds (N.Network.grid self.old.below) (held_grid N.Network.grid self.old) (held_grid N.Network.grid self.new) line kwh × (self.new.amounts.kwh ≡ slice_set self.old.amounts.kwh line kwh)) (self.new ≡ self.old) }
    {
        if line >= self.below.lines() {
            return Err(Fault::Missing);
        }
        if kwh > MOST_KWH {
            return Err(Fault::OutOfRange);
        }
        self.hold(line, kwh);
        Ok(())
    }

    fn hold(&mut self, line: usize, kwh: u32)
        requires { line < most_lines }
        ensures below { self.new.below ≡ self.old.below }
        ensures sets { self.new.amounts.kwh ≡ slice_set self.old.amounts.kwh line kwh }
        ensures holds { Holds (N.Network.grid self.old.below) (held_grid N.Network.grid self.old) (held_grid N.Network.grid self.new) line kwh }
    {
        self.amounts.hold(line, kwh);
    }
}

impl<N: Network> HeldBack<Monitored<N>> {
    /// Watches a further line below, under the questions of that layer; what is held back stays.
    pub fn watch(&mut self, limit: u32, sensitivities: [i16; MOST_ZONES]) -> Result<(), Fault>
        ensures watched { Answered result (OfZones (N.Network.grid self.old.below.below).zones sensitivities) (NumbersInRange limit sensitivities) (PlaceLeft (N.Network.grid self.old.below.below) (lines_in self.old.below.watched)) (λ _. (self.new.below.below ≡ self.old.below.below) × ((monitored_grid N.Network.grid self.new.below).lines ≡ (monitored_grid N.Network.grid self.old.below).lines ++ line_of limit sensitivities ∷ [])) ((self.new.below.below ≡ self.old.below.below) × (self.new.below.watched ≡ self.old.below.watched)) }
        ensures held { self.new.amounts ≡ self.old.amounts }
    {
        // Limit and sensitivities come apart: they are a row only where the zones of the network are known.
        self.below.watch(limit, sensitivities)
    }
}

impl<N: Network> Network for HeldBack<N> {
    ghost grid = { held_grid N.Network.grid };

    ghost zoned = { λ h. N.Network.zoned h.below };

    ghost fewzones = { λ h. N.Network.fewzones h.below };

    ghost fewlines = { λ h. held_few_lines (N.Network.grid h.below) h.amounts.kwh (N.Network.fewlines h.below) };

    ghost limited = { λ h. held_limited (N.Network.grid h.below) h.amounts.kwh (N.Network.limited h.below) };

    ghost sensitive = { λ h. held_sensitive (N.Network.grid h.below) h.amounts.kwh (N.Network.sensitive h.below) };

    fn zones(&self) -> usize {
        self.below().zones()
    }

    fn lines(&self) -> usize {
        self.below().lines()
    }

    fn sensitivity(&self, line: usize, zone: usize) -> i16 {
        self.below().sensitivity(line, zone)
    }

    fn limit(&self, line: usize) -> u32 {
        let limit = self.below().limit(line);
        self.amounts.lower(line, limit)
    }
}
