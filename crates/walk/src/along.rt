// The sums along a row or a column, and the change in it that they ask for.
ghost use Rattle.std.specs.Prelude.{◌≤◌, ◌<◌};
ghost use Rattle.code.specs.Held.{held};
ghost use Rattle.walk.specs.Along.{Stepping, TakenOff, Changed};

use crate::index::step;

// Puts into `out` every `weight`-th sum from `start` on: p of them, as the lines go round. (By their places: these come round modulo p,
// which no `step_by` does.)
pub fn along(p: usize, start: usize, weight: usize, sums: &[u8; 257], out: &mut [u8; 257])
    requires { (start < p) × (weight < p) × (p ≤ 257) }
    ensures { Stepping p start weight (held sums.now) (held out.new) }
{
    let mut t = start;
    for k in 0..p {
        out[k] = sums[t];
        t = step(p, t, weight);
    }
}

// Takes off the common byte, the sum at the line's added zero (SPEC 5.8).
pub fn take_off_common(p: usize, sums: &mut [u8; 257])
    requires { (0 < p) × (p ≤ 257) }
    ensures { TakenOff p (held sums.old) (held sums.new) }
{
    let common = sums[p - 1];
    for sum in &mut sums[..p] {
        *sum ^= common;
    }
}

// The change that mends a hurt line: the sums along it, and the common byte taken off.
pub fn shifted(p: usize, start: usize, weight: usize, sums: &[u8; 257], change: &mut [u8; 257])
    requires { (start < p) × (weight < p) × (p ≤ 257) }
    ensures { Changed p start weight (held sums.now) (held change.new) }
{
    along(p, start, weight, sums, change);
    take_off_common(p, change);
}
