//! The flows over the lines of a network, and the rules about them.

ghost use Rattle.std.specs.Prelude.{◌≡◌, ◌*◌, ◌^◌, ◌≤◌, pos, ◌*ℤ◌, Decides, unsigned_abs};
ghost use Rattle.auction.specs.declared.Broken.TheVariants.{Flow, Binding};
ghost use Rattle.auction.specs.Limits.{capacity, WithinLimit, Binds};
ghost use Rattle.auction.specs.Grids.{line_count, limit_at, sensitivity_at};
ghost use Rattle.sheets.specs.Proposals.{prices_of};
ghost use Rattle.flows.specs.Firsts.{Each};
ghost use Rattle.flows.specs.Flows.{array_flow, array_total};

use crate::numbers::sum_of;
use auction::Broken;
use auction::bounds::MOST_ZONES;
use network::Network;
use sheets::Sheet;

// A network and net injections are two references that no fact ties: a struct of both would only add a name to each clause.

/// What all zones together feed in.
fn injected(nets: &[i32; MOST_ZONES]) -> i64
    ensures { result ≡ array_total nets.now }
{
    sum_of(MOST_ZONES, |zone| i64::from(nets[zone]))
}

/// Do the net injections add up to 0?
pub fn in_balance(nets: &[i32; MOST_ZONES]) -> bool
    ensures { Decides result (array_total nets.now ≡ pos 0) }
{
    injected(nets) == 0
}

/// What a zone's net injection adds to the flow over a line.
fn share<N: Network>(network: &N, line: usize, zone: usize, net: i32) -> i64
    ensures value { result ≡ sensitivity_at (N.Network.grid network.now) line zone *ℤ net }
    ensures bound { unsigned_abs result ≤ 1000 * 2 ^ 31 }
{
    i64::from(network.sensitivity(line, zone)) * i64::from(net)
}

/// The flow over a line, in thousandths of a kWh.
fn flow<N: Network>(network: &N, line: usize, nets: &[i32; MOST_ZONES]) -> i64
    ensures value { result ≡ array_flow (N.Network.grid network.now) nets.now line }
    ensures bound { unsigned_abs result ≤ 24000 * 2 ^ 31 }
{
    sum_of(MOST_ZONES, |zone| share(network, line, zone, nets[zone]))
}

/// A line's limit in the unit of flows.
fn capacity_of<N: Network>(network: &N, line: usize) -> i64
    ensures { result ≡ capacity (limit_at (N.Network.grid network.now) line) }
{
    1000 * i64::from(network.limit(line))
}

/// Is the flow over a line within its limit?
fn within_limit<N: Network>(network: &N, line: usize, nets: &[i32; MOST_ZONES]) -> bool
    ensures { Decides result (WithinLimit (limit_at (N.Network.grid network.now) line) (array_flow (N.Network.grid network.now) nets.now line)) }
{
    flow(network, line, nets) <= capacity_of(network, line)
}

/// No line carries more than its limit; or the first that does.
pub fn lines_within_limits<N: Network>(network: &N, nets: &[i32; MOST_ZONES]) -> Result<(), Broken>
    ensures { Each Flow (λ l. WithinLimit (limit_at (N.Network.grid network.now) l) (array_flow (N.Network.grid network.now) nets.now l)) (line_count (N.Network.grid network.now)) result }
{
    // A loop returns the refusal at once; `find` would leave the line to be matched again.
    for line in 0..network.lines() {
        if !within_limit(network, line, nets) {
            // Nothing is lost: a network has at most 60 lines.
            return Err(Broken::Flow { line: line as u8 });
        }
    }
    Ok(())
}

/// Is a line with a positive shadow price at its limit?
fn binds<N: Network>(network: &N, line: usize, nets: &[i32; MOST_ZONES], sheet: &Sheet) -> bool
    ensures { Decides result (Binds (limit_at (N.Network.grid network.now) line) ((prices_of sheet.now).shadow line) (array_flow (N.Network.grid network.now) nets.now line)) }
{
    if sheet.shadow_price(line) == 0 {
        return true;
    }
    flow(network, line, nets) == capacity_of(network, line)
}

/// Each line with a shadow price is at its limit; or the first that is not.
pub fn lines_bind<N: Network>(
    network: &N,
    nets: &[i32; MOST_ZONES],
    sheet: &Sheet,
) -> Result<(), Broken>
    ensures { Each Binding (λ l. Binds (limit_at (N.Network.grid network.now) l) ((prices_of sheet.now).shadow l) (array_flow (N.Network.grid network.now) nets.now l)) (line_count (N.Network.grid network.now)) result }
{
    // A loop returns the refusal at once; `find` would leave the line to be matched again.
    for line in 0..network.lines() {
        if !binds(network, line, nets, sheet) {
            // Nothing is lost: a network has at most 60 lines.
            return Err(Broken::Binding { line: line as u8 });
        }
    }
    Ok(())
}
