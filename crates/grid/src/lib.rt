// The steps of a row's grid, and the extras of a point by its number.

#![tactic(auto)]

ghost use Rattle.std.specs.Prelude.{◌≤◌, ◌<◌, ◌^◌};
ghost use Rattle.grid.specs.Contract.{StepsOf, ExtrasAt};

// A step of a grid: the digit that stands for it, and its value.
#[derive(Clone, Copy)]
pub struct Step {
    pub digit: u64,
    pub value: u64,
}

// The steps of a grid in order, equal ones once, each with the first digit that has it: the first `count` of `steps`.
// Kept: an array and a count, since memory is fixed here, and `StepsOf` promises what stands behind the steps too.
#[derive(Clone, Copy)]
pub struct Steps {
    pub start: u64,
    pub grid: u64,
    pub count: usize,
    pub steps: [Step; 9],
}

// The grid's steps floor(i * start / (g - 1)), which do not fall: a step equal to the one before is left out.
pub fn steps_of(start: u64, g: usize) -> Steps
    requires { (2 ≤ g) × (g ≤ 9) × (start < 2 ^ 32) }
    ensures { StepsOf start g result }
{
    let grid = g as u64;
    let mut steps = [Step { digit: 0, value: 0 }; 9];
    let mut count: usize = 1;
    let mut last: u64 = 0;
    for digit in 1..grid {
        let value = digit * start / (grid - 1);
        if value != last {
            steps[count] = Step { digit, value };
            count += 1;
        }
        last = value;
    }
    Steps {
        start,
        grid,
        count,
        steps,
    }
}

// The extras of the point with this number: its digits to the base g, the last group's lowest, each for its step.
pub fn extras_at(number: u64, start: u64, g: usize, groups: usize) -> [u64; 32]
    requires { (2 ≤ g) × (g ≤ 9) × (start < 2 ^ 32) × (groups ≤ 31) }
    ensures { ExtrasAt number start g groups result }
{
    let base = g as u64;
    let mut extras = [0u64; 32];
    let mut rest = number;
    for k in (0..groups).rev() {
        extras[k] = rest % base * start / (base - 1);
        rest /= base;
    }
    extras
}
