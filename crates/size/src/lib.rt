// Judges sizes and slopes, for every call that is told some; the house slope of a size; the numbers for no.
#![tactic(auto)]

ghost use Rattle.std.specs.Prelude.{◌≡◌, ◌+◌, ◌≤◌};
ghost use Rattle.residue.specs.Size.{Size, Allowed};
ghost use Rattle.code.specs.Says.{Says};
ghost use Rattle.code.specs.Kind.{Takes};
ghost use Rattle.size.specs.Answer.{HouseTold, house_said, Judged, judgement_said};
ghost use Rattle.size.specs.Refusal.{number_of};

use code::Kind;

// Why a call says no.
#[derive(Clone, Copy, PartialEq, Eq)]
pub enum Refusal {
    BadSize,
    BadSlope,
    BadLength,
    BadPlace,
    Damaged,
    BadMark,
    CutShort,
    Doubtful,
    TooSmall,
    NotGood,
    DiffersElsewhere,
}

// The number of a refusal (SPEC 9.1). (Not the enum's own numbers: that two refusals may have one is a wrong program, which must-fail
// `wrong_number` shows to be refused, and an enum cannot be that wrong.)
pub fn number(refusal: Refusal) -> usize
    ensures { result ≡ number_of refusal }
{
    match refusal {
        Refusal::BadSize => 1,
        Refusal::BadSlope => 2,
        Refusal::BadLength => 3,
        Refusal::BadPlace => 4,
        Refusal::Damaged => 5,
        Refusal::BadMark => 6,
        Refusal::CutShort => 7,
        Refusal::Doubtful => 8,
        Refusal::TooSmall => 9,
        Refusal::NotGood => 10,
        Refusal::DiffersElsewhere => 11,
    }
}

// Why it is not known what a tile was: nothing explains what is hurt in it, or more than one thing does.
#[derive(Clone, Copy, PartialEq, Eq)]
pub enum Unclear {
    Damaged,
    Doubtful,
}

// The refusal by which a call says so.
impl From<Unclear> for Refusal {
    ghost use Rattle.size.specs.Unclear.{refusal_of};

    ghost from_gives = { λ unclear refusal. refusal ≡ refusal_of unclear };

    fn from(unclear: Unclear) -> Refusal {
        match unclear {
            Unclear::Damaged => Refusal::Damaged,
            Unclear::Doubtful => Refusal::Doubtful,
        }
    }
}

// The house slope of p, or refusal 1 where p is no size.
pub fn house_slope(p: usize) -> Result<usize, Refusal>
    ensures { HouseTold p (house_said result) }
{
    house::slope(p).ok_or(Refusal::BadSize)
}

// Is p a size?
pub fn takes_size(p: usize) -> bool
    ensures { Says result (Size p) }
{
    house_slope(p).is_ok()
}

// Is l from 2 to p - 2?
fn between(p: usize, l: usize) -> bool
    ensures { Says result ((2 ≤ l) × (l + 2 ≤ p)) }
{
    4 <= p && 2 <= l && l <= p - 2
}

// Does the size p allow the slope l (SPEC 2.2)? Its powers leave all remainders but 0 where none from the first to the (p - 2)-th is 1.
// A p that is too large for a size allows none.
fn allows(p: usize, l: usize) -> bool
    ensures { Size p → Says result (Allowed p l) }
{
    if 257 < p {
        return false;
    }
    if !between(p, l) {
        return false;
    }
    let mut power = l;
    for _i in 1..p - 1 {
        if power == 1 {
            return false;
        }
        power = power * l % p;
    }
    true
}

// Does a kind take the slope l at the size p (SPEC 2.5)?
fn takes(kind: Kind, p: usize, l: usize) -> bool
    ensures { Size p → Says result (Takes kind p l) }
{
    match kind {
        Kind::New => allows(p, l),
        Kind::Old => between(p, l),
    }
}

// Judges a size and a slope: refusal 1 where p is no size, then refusal 2 where the kind does not take l there. The house slope is known
// from the table, so that no power of it is looked at.
pub fn judge(kind: Kind, p: usize, l: usize) -> Result<(), Refusal>
    ensures { Judged kind p l (judgement_said result) }
{
    let house = house_slope(p)?;
    if l == house || takes(kind, p, l) {
        Ok(())
    } else {
        Err(Refusal::BadSlope)
    }
}

// Is p a size at which a kind takes the slope l?
pub fn takes_slope(kind: Kind, p: usize, l: usize) -> bool
    ensures { Says result (Size p × Takes kind p l) }
{
    judge(kind, p, l).is_ok()
}
