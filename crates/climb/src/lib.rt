// The search below a branch: the groups are chosen from the last to the first, toward the root, and what those chosen leave of the row is
// handed on as one curve, a stage for each server.

#![tactic(auto)]

ghost use Rattle.std.specs.Prelude.{◌≡◌, ℕ, ◌+◌, ◌-◌, ◌*◌, ◌≤◌, ◌<◌, ◌^◌, ◌||◌, not, leb, All};
ghost use Rattle.std.specs.List.{list_all, zip};
ghost use Rattle.std.proofs.Math.Seq.{slice};
ghost use Rattle.ground.specs.Each.{Each};
ghost use Rattle.curves.specs.Curve.{line, delay};
ghost use Rattle.curves.specs.Held.{InRange, Holds, shape_of};
ghost use Rattle.curves.specs.Part.{changed};
ghost use Rattle.keys.specs.Left.{left_by};
ghost use Rattle.keys.specs.State.{rest_of, gives_beside, gives_under};
ghost use Rattle.climb.specs.Branch.{want_in};
ghost use Rattle.climb.specs.Asked.{Takes, Asks};
ghost use Rattle.climb.specs.Choosing.{Ready};
ghost use Rattle.climb.specs.Contract.{Choose};

use curves::{Curve, Stage, change};
use grid::Steps;
use tandem::Flow;

// What the groups chosen so far leave of the row, the number that their digits write, and what a digit of the next group counts.
#[derive(Clone, Copy)]
pub struct Branch {
    pub curve: Curve,
    pub number: u64,
    pub weight: u64,
}

// Whether a key with these slots and this number has reached the best so far.
fn is_late(slots: u64, number: u64, best: u64) -> bool
    requires { (slots < 2 ^ 42) × (number < 65536) }
    ensures { result ≡ leb best (slots * 65536 + number) }
{
    best <= slots * 65536 + number
}

// The numbers with those from `from` up to before `to` lowered.
fn lowered(wants: &[u64; 16], from: usize, to: usize, by: u64) -> [u64; 16]
    requires { (from ≤ to) × (to ≤ 16) × ((j : ℕ) → from ≤ j → j < to → by ≤ want_in wants.now j) }
    ensures { result ≡ changed (λ (x : ℕ). x - by) from to wants.now }
{
    let mut fewer = *wants;
    change(&mut fewer, from, to, |want| want - by);
    fewer
}

// Whether each of these stages has in `rest` slots what is wanted of it.
fn gives(stages: &[Stage], wants: &[u64], rest: u64) -> bool
    requires { All (λ s. line rest s < 2 ^ 63) stages.now }
    ensures { result ≡ list_all (λ p. leb p.1 (line rest p.0)) (zip stages.now wants.now) }
{
    stages
        .iter()
        .zip(wants)
        .all(|(s, want)| *want <= s.burst + s.rate * rest)
}

// The slots that are left behind these, up to the greatest delay whose key with this number is below the best so far, and one more.
fn rest_of(slots: u64, number: u64, best: u64) -> u64
    requires { (slots * 65536 + number < best) × (number < 65536) }
    ensures { result ≡ rest_of 65536 best slots number }
{
    (best - 1 - number) / 65536 - slots + 1
}

impl Branch {
    // The branch behind which group g is chosen, `gap` slots after the slots so far, with a digit of a grid.
    fn next(&self, g: Flow, gap: u64, digit: u64, grid: u64) -> Branch
        requires { Takes self.now g gap digit grid }
        ensures { Holds result.curve (left_by (shape_of self.now.curve) g gap) × (result.number ≡ self.now.number + digit * self.now.weight)
            × (result.weight ≡ self.now.weight * grid) }
    {
        let curve = self.curve.left(g.first - 1, g.last, g.burst, g.rate, gap);
        Branch {
            curve,
            number: self.number + digit * self.weight,
            weight: self.weight * grid,
        }
    }

    // Whether a step of group g, and each later one, is no better than the best so far: its slots have reached it, or some server beside the path
    // of g can not give, in the slots that are left, what is wanted of it.
    fn is_past(&self, g: Flow, slots: u64, number: u64, wants: &[u64; 16], best: u64) -> bool
        requires { Asks self.now.curve g slots number best }
        ensures { result ≡ (leb best (slots * 65536 + number)
            || not (gives_beside (want_in wants.now) (rest_of 65536 best slots number) g (shape_of self.now.curve).stages)) }
    {
        if is_late(slots, number, best) {
            return true;
        }
        let c = &self.curve;
        let rest = rest_of(slots, number, best);
        !gives(&c.stages[..g.first - 1], &wants[..g.first - 1], rest)
            || !gives(&c.stages[g.last..c.count], &wants[g.last..c.count], rest)
    }

    // Whether each server under the path of g can still give, in the slots that are left below the best so far, what is wanted of it.
    fn is_open(&self, g: Flow, wants: &[u64; 16], best: u64) -> bool
        requires { Asks self.now.curve g self.now.curve.offset self.now.number best × (self.now.curve.offset * 65536 + self.now.number < best) }
        ensures { result ≡ gives_under (want_in wants.now) (rest_of 65536 best self.now.curve.offset self.now.number) g (shape_of self.now.curve).stages }
    {
        let rest = rest_of(self.curve.offset, self.number, best);
        let (from, to) = (g.first - 1, g.last);
        gives(&self.curve.stages[from..to], &wants[from..to], rest)
    }

    // The key of a whole point, at which the watched flow w has its delay.
    fn key(&self, w: Flow) -> u64
        requires { InRange self.now.curve × (w.burst + w.rate < 2 ^ 40) × (delay (shape_of self.now.curve) w.burst w.rate < 2 ^ 42) × (self.now.number < 65536) }
        ensures { result ≡ delay (shape_of self.now.curve) w.burst w.rate * 65536 + self.now.number }
    {
        self.curve.delay(w.burst, w.rate) * 65536 + self.number
    }
}

// The least of the best so far and of the keys of all points below a branch, with the first k groups still to be chosen: group k with each
// step in turn, and below each the groups before it.
#[tactic(auto, using(crate::proofs::Climbing::steps_short))]
pub fn choose(
    flows: &[Flow],
    steps: &Steps,
    k: usize,
    s: &Branch,
    wants: &[u64; 16],
    best: u64,
) -> u64
    requires { Ready flows.now steps.now k s.now wants.now best }
    ensures { Choose flows.now steps.now k s.now best result }
{
    let g = flows[k];
    if k == 0 {
        return best.min(s.key(g));
    }
    let least = s.curve.lag(g.first - 1, g.last, g.burst);
    let fewer = lowered(wants, g.first - 1, g.last, g.burst);
    let mut b = best;
    for step in &steps.steps[..steps.count] {
        let gap = least + step.value;
        let number = s.number + step.digit * s.weight;
        if s.is_past(g, s.curve.offset + gap, number, wants, b) {
            return b;
        }
        let next = s.next(g, gap, step.digit, steps.grid);
        if next.is_open(g, &fewer, b) {
            b = choose(flows, steps, k - 1, &next, &fewer, b);
        }
    }
    b
}
