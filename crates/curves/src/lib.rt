// Curves: what a stretch of servers guarantees, as an offset and stages (document 01, "Curves"). A method reads its curve and gives a new
// curve or a number.

#![tactic(auto)]

ghost use Rattle.std.specs.Prelude.{◌≡◌, ◌+◌, ◌-◌, ◌≤◌, ◌<◌, ◌^◌, max, length};
ghost use Rattle.std.proofs.Math.Seq.{slice};
ghost use Rattle.ground.specs.Each.{Each};
ghost use Rattle.curves.specs.Slots.{bucket};
ghost use Rattle.curves.specs.Curve.{line, greatest, Rates};
ghost use Rattle.curves.specs.Part.{Acts};
ghost use Rattle.curves.specs.Held.{shape_of, Live, Leaves, InRange, Leaving};
ghost use Rattle.curves.specs.Contract.{Change, CatchUp, After, None, Join, Lag, Left, LeastWait, Remainder, Delay, Backlog};

// A line that begins at `burst` bytes and rises by `rate` a slot.
#[derive(Clone, Copy)]
pub struct Stage {
    pub burst: u64,
    pub rate: u64,
}

// Nothing up to `offset`, then the least of the first `count` stages.
// Kept: an array and a count, since memory is fixed here and the methods promise what stands behind the stages too.
#[derive(Clone, Copy)]
pub struct Curve {
    pub offset: u64,
    pub count: usize,
    pub stages: [Stage; 16],
}

// Changes the entries from place `from` up to before place `to` by `f`; the others stay.
pub fn change<T: Copy, F: Fn(T) -> T>(xs: &mut [T], from: usize, to: usize, f: F)
    requires part { (from ≤ to) × (to ≤ length xs.old) }
    requires callable { Each (λ x. F.pre f x) (slice from to xs.old) }
    requires acts { (h : T → T) × Acts (F.post f) h }
    ensures { Change (F.post f) from to xs.old xs.new }
{
    for x in &mut xs[from..to] {
        *x = f(*x);
    }
}

impl Stage {
    // The slots until the stage has `sigma` bytes, or `most` if that is more.
    // Kept: with `most`, since a stage that has enough by then needs no division.
    pub fn catch_up(self, sigma: u64, most: u64) -> u64
        requires { Live self × (sigma < 2 ^ 40) × (most ≤ sigma) }
        ensures { CatchUp self sigma most result }
    {
        if self.burst + self.rate * most < sigma {
            (sigma - self.burst).div_ceil(self.rate)
        } else {
            most
        }
    }

    // What a group leaves of the stage, `gap` slots after the curve's offset.
    pub fn after(self, sigma: u64, rho: u64, gap: u64) -> Stage
        requires { Leaves sigma rho gap self }
        ensures { After self sigma rho gap result }
    {
        Stage {
            burst: self.burst + self.rate * gap - sigma,
            rate: self.rate - rho,
        }
    }

    // The bytes by which `sent` is above the stage at the end of its first slot.
    fn excess(self, sent: u64) -> u64
        ensures { result ≡ sent - line 1 self }
    {
        sent.saturating_sub(self.burst).saturating_sub(self.rate)
    }
}

// Kept: `sigma` and `rho` apart, as document 01 has them, since a caller holds them in a flow of its own and would make a struct of them for each call.
impl Curve {
    // The curve of no server: joined to a curve, it gives that curve.
    pub fn none() -> Curve
        ensures { None result }
    {
        Curve {
            offset: 0,
            count: 0,
            stages: [Stage { burst: 0, rate: 0 }; 16],
        }
    }

    // The curve of two stretches in series: the offsets add up, and the stages of both stand in order.
    pub fn join(&self, other: &Curve) -> Curve
        requires { (self.now.count + other.now.count ≤ 16) × (self.now.offset + other.now.offset < 2 ^ 63) }
        ensures { Join self.now other.now result }
    {
        let mut r = *self;
        let n = other.count;
        r.count += n;
        r.stages[self.count..self.count + n].copy_from_slice(&other.stages[..n]);
        r.offset += other.offset;
        r
    }

    // The slots until the stages from `from` up to before `to` have `sigma` bytes.
    pub fn lag(&self, from: usize, to: usize, sigma: u64) -> u64
        requires { (to ≤ self.now.count) × (self.now.count ≤ 16) × Each Live (slice from to (shape_of self.now).stages) × (sigma < 2 ^ 40) }
        ensures { Lag self.now from to sigma result }
    {
        let mut most = 0;
        // Kept: an index, since `from` may be above `to`, where there is no slice of the stages.
        for i in from..to {
            most = self.stages[i].catch_up(sigma, most);
        }
        most
    }

    // What a group (sigma, rho) leaves of the stages from `from` up to before `to`, `gap` slots after the offset; the others stay.
    pub fn left(&self, from: usize, to: usize, sigma: u64, rho: u64, gap: u64) -> Curve
        requires { (from ≤ to) × (to ≤ self.now.count) × (self.now.count ≤ 16) × Each (Leaves sigma rho gap) (slice from to (shape_of self.now).stages)
            × (self.now.offset + gap < 2 ^ 64) }
        ensures { Left self.now from to sigma rho gap result }
    {
        let mut r = *self;
        change(&mut r.stages, from, to, |s| s.after(sigma, rho, gap));
        r.offset += gap;
        r
    }

    // The least wait for a group with burst `sigma`.
    pub fn least_wait(&self, sigma: u64) -> u64
        requires { InRange self.now × (sigma < 2 ^ 40) }
        ensures { LeastWait self.now sigma result }
    {
        self.offset + self.lag(0, self.count, sigma)
    }

    // What a group (sigma, rho) leaves of the curve after a wait.
    pub fn remainder(&self, sigma: u64, rho: u64, wait: u64) -> Curve
        requires { Leaving self.now sigma rho wait }
        ensures { Remainder self.now sigma rho wait result }
    {
        self.left(0, self.count, sigma, rho, wait - self.offset)
    }

    // The delay of a bucket (sigma, rho): one slot less than the least wait for what it may send in its first slot.
    pub fn delay(&self, sigma: u64, rho: u64) -> u64
        requires { InRange self.now × (sigma + rho < 2 ^ 40) }
        ensures { Delay self.now sigma rho result }
    {
        let wait = self.least_wait(sigma + rho);
        if self.offset < wait { wait - 1 } else { wait }
    }

    // The bytes by which `sent` is above the curve at the end of the first slot behind its offset.
    fn first_excess(&self, sent: u64) -> u64
        requires { self.now.count ≤ 16 }
        ensures { result ≡ greatest (λ s. sent - line 1 s) (shape_of self.now).stages }
    {
        let stages = self.stages[..self.count].iter();
        stages.map(|s| s.excess(sent)).max().unwrap_or(0)
    }

    // The backlog of a bucket (sigma, rho): what it may send up to the offset; where that is 0, what it may send in its first slot, less the
    // curve there.
    #[tactic(auto, using(crate::proofs::BacklogLaws::sent_small))]
    pub fn backlog(&self, sigma: u64, rho: u64) -> u64
        requires { InRange self.now × Rates rho (shape_of self.now).stages × (bucket sigma rho (self.now.offset + 1) < 2 ^ 63) }
        ensures { Backlog self.now sigma rho result }
    {
        if 0 < self.offset {
            sigma + rho * self.offset
        } else {
            self.first_excess(sigma + rho)
        }
    }
}
