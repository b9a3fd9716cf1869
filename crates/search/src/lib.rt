// The search of a row: the first point of its grid with the least delay. The start and the answer's own point are worked out with whole
// curves over the nesting tree (crate `point`); which point it is, the recursion over the groups finds (crate `climb`).

#![tactic(auto)]

ghost use Rattle.std.specs.Prelude.{◌≡◌, ℕ, ◌+◌, ◌-◌, ◌≤◌, ◌<◌, ◌^◌, length, get_or, drop};
ghost use Rattle.tandem.specs.Tandem.{no_flow};
ghost use Rattle.curves.specs.Held.{Holds};
ghost use Rattle.tree.specs.Amounts.{sum_of};
ghost use Rattle.tree.proofs.PruneLaws.{latencies_of};
ghost use Rattle.ground.specs.Each.{Each};
ghost use Rattle.curves.specs.Part.{changed};
ghost use Rattle.keys.specs.Left.{row_curve, bursts_on};
ghost use Rattle.keys.specs.Numbers.{point_at};
ghost use Rattle.point.specs.Point.{servers_of, flows_of, answer_at, Shaped};
ghost use Rattle.grid.specs.Steps.{step_at, steps_in};
ghost use Rattle.search.specs.Point.{searched};
ghost use Rattle.search.specs.Searchable.{start_of, Searchable};
ghost use Rattle.search.specs.Contract.{Search};

use climb::Branch;
use curves::{Curve, Stage, change};
use grid::Steps;
use point::Point;
use row::Row;

// What the search gives: the delay with no extras, the least delay, and each group's wait at the first point that has it.
#[derive(Clone, Copy)]
pub struct Found {
    pub start: u64,
    pub bound: u64,
    pub waits: [u64; 32],
}

// All servers of the row as one curve, before any group is taken out: a stage for each, after their latencies added up.
fn curve_of(row: &Row) -> Curve
    requires { (row.now.size ≤ 16) × (length (servers_of row.now) ≡ row.now.size) × (sum_of (latencies_of (servers_of row.now)) < 2 ^ 33) }
    ensures { Holds result (row_curve (servers_of row.now)) }
{
    let mut stages = [Stage { burst: 0, rate: 0 }; 16];
    let mut offset = 0;
    for (j, server) in row.servers[..row.size].iter().enumerate() {
        stages[j] = Stage {
            burst: 0,
            rate: server.rate,
        };
        offset += server.latency;
    }
    Curve {
        offset,
        count: row.size,
        stages,
    }
}

// Adds `by` to the numbers from place `from` up to before place `to`.
fn raise(xs: &mut [u64], from: usize, to: usize, by: u64)
    requires { (from ≤ to) × (to ≤ length xs.old) × ((j : ℕ) → get_or xs.old j 0 + by < 2 ^ 64) }
    ensures { xs.new ≡ changed (λ x. x + by) from to xs.old }
{
    change(xs, from, to, |x| x + by);
}

// What is wanted of each server: what the watched flow may send in its first slot, and the bursts of the groups whose paths pass it.
fn wants_of(row: &Row) -> [u64; 16]
    requires { Shaped row.now × Each (λ f. f.burst + f.rate < 2 ^ 40) (flows_of row.now) }
    ensures { (j : ℕ) → j < row.now.size
        → get_or result j 0 ≡ bursts_on (drop 1 (flows_of row.now)) j + ((get_or (flows_of row.now) 0 no_flow).burst + (get_or (flows_of row.now) 0 no_flow).rate) }
{
    let watched = row.groups[0];
    let mut wants = [watched.burst + watched.rate; 16];
    for g in &row.groups[1..row.count] {
        raise(&mut wants, g.first - 1, g.last, g.burst);
    }
    wants
}

// The number of the point at which the answer stands. Where start is at most the latencies and the least step that is not 0, no point is
// better than the first.
fn best_number(row: &Row, steps: &Steps) -> u64
    requires { Searchable row.now × (row.now.mode ≡ 0) × (steps.now ≡ steps_in (start_of row.now) row.now.grid) }
    ensures { (searched row.now).best ≡ answer_at row.now (point_at (step_at (start_of row.now) row.now.grid) row.now.grid (row.now.count - 1) result) }
{
    let curve = curve_of(row);
    if steps.start <= curve.offset + steps.steps[1].value {
        return 0;
    }
    let wants = wants_of(row);
    let whole = Branch {
        curve,
        number: 0,
        weight: 1,
    };
    let most = steps.start * 65536;
    let key = climb::choose(
        &row.groups[..row.count],
        steps,
        row.count - 1,
        &whole,
        &wants,
        most,
    );
    key % 65536
}

// What is found: the start, and the delay and the waits at a point.
fn found_at(start: u64, p: Point) -> Found
    ensures { (result.start ≡ start) × (result.bound ≡ p.delay) × (result.waits ≡ p.waits) }
{
    let Point { delay, waits } = p;
    Found {
        start,
        bound: delay,
        waits,
    }
}

// The search of a row: the first point of its grid with the least delay; in mode 1 the point with no extras.
pub fn search(row: &Row) -> Found
    requires { Searchable row.now }
    ensures { Search row.now result }
{
    let none = [0u64; 32];
    let first = point::evaluate(row, &none);
    let start = first.delay;
    if row.mode != 0 {
        return found_at(start, first);
    }
    let number = best_number(row, &grid::steps_of(start, row.grid));
    if number == 0 {
        return found_at(start, first);
    }
    let extra = grid::extras_at(number, start, row.grid, row.count - 1);
    found_at(start, point::evaluate(row, &extra))
}
