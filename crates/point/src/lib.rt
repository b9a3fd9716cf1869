// One point of a row's grid over the nesting tree, with whole curves: an array of curve records, child before parent.

#![tactic(auto)]

ghost use Rattle.std.specs.Prelude.{◌≡◌, ◌∷◌};
ghost use Rattle.curves.specs.Curve.{neutral};
ghost use Rattle.curves.specs.Held.{Holds};
ghost use Rattle.point.specs.Nodes.{Walkable, path_curve};
ghost use Rattle.tree.specs.Plan.{plan};
ghost use Rattle.tree.specs.Fine.{AllFine};
ghost use Rattle.point.specs.Point.{servers_of, flows_of, extras_of, Shaped};
ghost use Rattle.point.specs.Contract.{Evaluate};

use curves::{Curve, Stage};
use row::Row;

// What stands at a point: the watched flow's delay, and each group's wait in order.
#[derive(Clone, Copy)]
pub struct Point {
    pub delay: u64,
    pub waits: [u64; 32],
}

// Joins the curve of node k to the curve of no server, piece by piece along its path: what the outermost groups behind the node leave, and each
// server that none of them crosses. tops[j] is the outermost of those groups that begins at server j, and lefts holds what each leaves.
// Kept: the curve is built where it is used, since a result costs a copy of it more for each node.
fn join_path(c: &mut Curve, row: &Row, k: usize, tops: &[Option<usize>; 17], lefts: &[Curve; 32])
    requires { Holds c.old neutral × Walkable row.now k tops.now lefts.now }
    ensures { Holds c.new (path_curve row.now k tops.now lefts.now) }
{
    let g = row.groups[k];
    // Kept: a `while`, since a group takes all servers of its path at once.
    let mut j = g.first;
    while j <= g.last {
        match tops[j] {
            Some(t) => {
                *c = c.join(&lefts[t]);
                j = row.groups[t].last + 1;
            }
            None => {
                let s = row.servers[j - 1];
                c.stages[c.count] = Stage {
                    burst: 0,
                    rate: s.rate,
                };
                c.offset += s.latency;
                c.count += 1;
                j += 1;
            }
        }
    }
}

// The nodes from the last group to the watched flow, each from those behind it.
pub fn evaluate(row: &Row, extra: &[u64; 32]) -> Point
    requires { Shaped row.now × AllFine (plan (servers_of row.now) (flows_of row.now) (0 ∷ extras_of row.now extra.now)) (flows_of row.now) }
    ensures { Evaluate row.now extra.now result }
{
    let watched = row.groups[0];
    let mut lefts = [Curve::none(); 32];
    let mut waits = [0u64; 32];
    let mut tops = [None; 17];
    for k in (1..row.count).rev() {
        let g = row.groups[k];
        let mut c = Curve::none();
        join_path(&mut c, row, k, &tops, &lefts);
        let least = c.least_wait(g.burst);
        let wait = least + extra[k - 1];
        lefts[k] = c.remainder(g.burst, g.rate, wait);
        waits[k - 1] = wait;
        tops[g.first] = Some(k);
    }
    let mut c = Curve::none();
    join_path(&mut c, row, 0, &tops, &lefts);
    Point {
        delay: c.delay(watched.burst, watched.rate),
        waits,
    }
}
