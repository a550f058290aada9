//! A network with further lines that are watched.

ghost use Rattle.std.specs.Prelude.{◌≡◌, ◌+◌, ◌≤◌, min, ltb, [], ◌∷◌, ◌++◌, length, get_or, pos, if◌then◌else◌, Decides, MatchBool, MatchOption, nat_lt, slice_index_or, unsigned_abs};
ghost use Rattle.auction.specs.Grids.{no_line, line_count};
ghost use Rattle.auction.specs.Bounds.{most_lines, most_kwh, most_sensitivity};
ghost use Rattle.network.specs.Bounds.{OfZones, NumbersInRange};
ghost use Rattle.auction.specs.Refusals.{Always, Answered};
ghost use Rattle.network.specs.Rows.{row_line, line_of, lines_in};
ghost use Rattle.layers.specs.Watched.{PlaceLeft};
ghost use Rattle.layers.specs.Layers.{monitored_grid};
ghost use Rattle.layers.specs.Piled.{watched_few_lines, watched_limited, watched_sensitive};

use auction::Fault;
use auction::bounds::{MOST_LINES, MOST_MONITORED, MOST_ZONES};
use network::{Network, Row, RowList, no_rows};

// The network below and the rows are held by value: no memory is asked for.
/// The lines below come first, then the watched ones, 60 in all.
#[derive(Clone, Copy)]
pub struct Monitored<N> {
    below: N,
    watched: RowList<MOST_MONITORED>,
}

impl<N: Network> Monitored<N> {
    /// Watches no line yet.
    pub fn new(below: N) -> Monitored<N>
        ensures kept { result.below ≡ below }
        ensures none { lines_in result.watched ≡ [] }
        ensures same { (monitored_grid N.Network.grid result).lines ≡ (N.Network.grid below).lines }
    {
        let watched = no_rows();
        Monitored { below, watched }
    }

    /// Watches a further line, after the others: refused where it has a sensitivity for a zone that is not there, else where a number is out of range, else
    /// where no place is left.
    pub fn watch(&mut self, limit: u32, sensitivities: [i16; MOST_ZONES]) -> Result<(), Fault>
        ensures { Answered result (OfZones (N.Network.grid self.old.below).zones sensitivities) (NumbersInRange limit sensitivities) (PlaceLeft (N.Network.grid self.old.below) (lines_in self.old.watched)) (λ _. (self.new.below ≡ self.old.below) × ((monitored_grid N.Network.grid self.new).lines ≡ (monitored_grid N.Network.grid self.old).lines ++ line_of limit sensitivities ∷ [])) ((self.new.below ≡ self.old.below) × (self.new.watched ≡ self.old.watched)) }
    {
        // Limit and sensitivities come apart: they are a row only where the zones of the network are known.
        let row = Row::new(self.below.zones(), limit, sensitivities)?;
        self.append(row)
    }

    /// Adds a row after the others: refused where no place is left.
    fn append(&mut self, row: Row) -> Result<(), Fault>
        ensures lines { Answered result Always Always (PlaceLeft (N.Network.grid self.old.below) (lines_in self.old.watched)) (λ _. (monitored_grid N.Network.grid self.new).lines ≡ (monitored_grid N.Network.grid self.old).lines ++ row_line row ∷ []) (self.new.watched ≡ self.old.watched) }
        ensures below { self.new.below ≡ self.old.below }
    {
        if self.lines() >= MOST_LINES {
            return Err(Fault::NoPlace);
        }
        self.watched.push(row)
    }

    /// The network below, whose lines come first.
    pub fn below(&self) -> &N
        ensures below { result.now ≡ self.now.below }
        ensures lines { line_count (monitored_grid N.Network.grid self.now) ≡ min most_lines (line_count (N.Network.grid result.now) + length (lines_in self.now.watched)) }
    {
        &self.below
    }

    /// The row of a line that is watched here; any other line is one below, or none at all.
    fn row(&self, line: usize) -> Option<Row>
        ensures { MatchOption result (slice_index_or (monitored_grid N.Network.grid self.now).lines line no_line ≡ slice_index_or (N.Network.grid self.now.below).lines line no_line) (λ row. row_line row ≡ slice_index_or (monitored_grid N.Network.grid self.now).lines line no_line) }
    {
        let below = self.below.lines();
        if line < below || line >= MOST_LINES {
            return None;
        }
        self.watched.get(line - below)
    }
}

impl<N: Network> Network for Monitored<N> {
    ghost grid = { monitored_grid N.Network.grid };

    ghost zoned = { λ m. N.Network.zoned m.below };

    ghost fewzones = { λ m. N.Network.fewzones m.below };

    ghost fewlines = { λ m. watched_few_lines (N.Network.grid m.below) (lines_in m.watched) };

    ghost limited = { λ m. watched_limited (N.Network.grid m.below) m.watched.count m.watched.rows (N.Network.fewlines m.below) (N.Network.limited m.below) };

    ghost sensitive = { λ m. watched_sensitive (N.Network.grid m.below) m.watched.count m.watched.rows (N.Network.fewlines m.below) (N.Network.sensitive m.below) };

    fn zones(&self) -> usize {
        self.below.zones()
    }

    fn lines(&self) -> usize {
        (self.below().lines() + self.watched.len()).min(MOST_LINES)
    }

    fn sensitivity(&self, line: usize, zone: usize) -> i16 {
        match self.row(line) {
            None => self.below.sensitivity(line, zone),
            Some(row) => {
                if zone >= self.below.zones() {
                    return 0;
                }
                row.sensitivity(zone)
            }
        }
    }

    fn limit(&self, line: usize) -> u32 {
        match self.row(line) {
            None => self.below.limit(line),
            Some(row) => row.limit(),
        }
    }
}
