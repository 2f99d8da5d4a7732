// A line by its number, and a flag: a line that the scanner lost, or none. On a reel and in C both stand as numbers; here a flag is an
// `Option<Line>`. (Functions, and no `From`: `Line` and `Option` are other crates' types, and the numbers are known in this crate alone.)
#![tactic(auto)]

ghost use Rattle.std.specs.Prelude.{◌≡◌, Some};
ghost use Rattle.flag.specs.Flag.{line_of, flag_of, flag_number, Short};

use code::Line;

// The number that stands for no line.
pub const NONE: usize = 0xFFFF;

// The first number that stands for a column.
const COLUMNS: usize = 0x8000;

// The line that a number names.
#[tactic(auto, using(crate::specs::Back::line_row, crate::specs::Back::line_column))]
pub fn line(n: usize) -> Line
    ensures { result ≡ line_of n }
{
    if n < COLUMNS {
        Line::Row(n)
    } else {
        Line::Column(n - COLUMNS)
    }
}

// What the flag with a number says.
#[tactic(auto, using(crate::specs::Back::flag_none, crate::specs::Back::flag_lost))]
pub fn read(n: usize) -> Option<Line>
    ensures { result ≡ flag_of n }
{
    if n == NONE { None } else { Some(line(n)) }
}

// The number of a flag.
pub fn number(flag: Option<Line>) -> usize
    requires { Short flag }
    ensures { result ≡ flag_number flag }
{
    flag.map_or(NONE, line_number)
}

// The number of a line.
fn line_number(line: Line) -> usize
    requires { Short (Some line) }
    ensures { result ≡ flag_number (Some line) }
{
    match line {
        Line::Row(r) => r,
        Line::Column(c) => COLUMNS + c,
    }
}
