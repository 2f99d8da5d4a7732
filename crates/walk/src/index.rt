// Steps and lines modulo p.
ghost use Rattle.std.specs.Prelude.{◌≡◌, ◌≤◌, ◌<◌};
ghost use Rattle.code.specs.OneLine as law;
ghost use Rattle.walk.specs.Sums.{Stepped};

use code::Line;

// The place a step of s after t.
pub fn step(p: usize, t: usize, s: usize) -> usize
    requires { (t < p) × (s < p) × (p ≤ 257) }
    ensures { Stepped p t s result }
{
    let next = t + s;
    if next < p { next } else { next - p }
}

// The number of a row or a column.
pub fn number(line: Line) -> usize
    ensures { result ≡ law.number line }
{
    match line {
        Line::Row(r) => r,
        Line::Column(c) => c,
    }
}

// The slope-s line through the k-th cell of a row or a column.
pub fn through(p: usize, s: usize, line: Line, k: usize) -> usize
    requires { (0 < p) × (p ≤ 257) × (s < p) × (law.number line < p) × (k < p) }
    ensures { (result ≡ law.through p s line k) × (result < p) }
{
    match line {
        Line::Row(r) => (r + s * k) % p,
        Line::Column(c) => (k + s * c) % p,
    }
}
