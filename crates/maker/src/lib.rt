// A new reel of texts: each becomes the good tile that has it, in a record of its own.
#![tactic(auto)]

ghost use Rattle.std.specs.Prelude.{IfOk};
ghost use Rattle.residue.specs.Size.{Size};

use code::Kind;
use files::asked::Asked;
use files::held::Word;
use files::input::Input;
use files::new::{NewReel, Target};
use files::told::Told;
use files::{asked, guide, input, new, say, streams};
use header::{Header, Mark};
use size::Refusal;
use words::Verb;

// What the words ask for: the size and the slope of the tiles, which are taken, the number of the first one, and how many texts there are.
#[derive(Clone, Copy)]
struct Plan {
    p: usize,
    l: usize,
    first: usize,
    texts: usize,
    ghost size: { Size p },
}

// The plain words before the texts.
const BEFORE: usize = 4;

// Writes a reel of texts.
pub fn write(rt: &HostRuntime, asked: Asked) -> Result<(), Told> {
    let Asked { plain, force, .. } = asked;
    let new = asked::word(rt, 0)?;
    if plain <= BEFORE {
        return Err(guide::too_few(rt, Some(Verb::Write)));
    }
    let plan = Plan::asked(rt, plain - BEFORE)?;
    let target = Target {
        name: new.bytes(),
        force,
    };
    new::made(rt, None, target, |new| plan.write(rt, new))
}

// The slope that the third plain word says: the house slope of p, or a number. Where p is no size it has none, and 0 is as good as any:
// `judged` refuses p before it looks at the slope.
fn slope(rt: &HostRuntime, p: usize) -> Result<usize, Told> {
    let word = asked::word(rt, 2)?;
    if word.bytes() != b"house".as_slice() {
        return asked::number(rt, Verb::Write, 2);
    }
    Ok(size::house_slope(p).unwrap_or(0))
}

// Judges the size and the slope. If they are refused, that is said.
#[tactic(auto, using(crate::specs::Plan::taken_size))]
fn judged(rt: &HostRuntime, p: usize, l: usize) -> Result<(), Told>
    ensures { IfOk result (λ _. Size p) }
{
    match size::judge(Kind::New, p, l) {
        Ok(()) => Ok(()),
        Err(refusal) => Err(not_taken(rt, p, l, refusal)),
    }
}

// Says why the size or the slope is refused.
fn not_taken(rt: &HostRuntime, p: usize, l: usize, refusal: Refusal) -> Told {
    say::name(rt);
    say::words(rt, b"refused ");
    say::number(rt, size::number(refusal));
    match refusal {
        Refusal::BadSize => {
            say::words(rt, b": no size is ");
            say::number(rt, p);
        }
        _ => {
            say::words(rt, b": at this size no slope is ");
            say::number(rt, l);
        }
    }
    say::words(rt, b"\n");
    guide::goes(rt, Some(Verb::Write))
}

// Says that a tile would have a number that is too large.
fn too_many(rt: &HostRuntime) -> Told {
    say::line(rt, b"the last tile's number is above 4294967295");
    guide::goes(rt, Some(Verb::Write))
}

// Says that a text is refused.
fn refused(rt: &HostRuntime, name: &[u8], refusal: Refusal) -> Told {
    say::name(rt);
    say::words(rt, name);
    say::words(rt, b": refused ");
    say::number(rt, size::number(refusal));
    say::words(rt, b"\n");
    Told
}

// The bytes of the largest record without flags, and a few more.
const RECORD: usize = 65552;

impl Plan {
    fn asked(rt: &HostRuntime, texts: usize) -> Result<Plan, Told> {
        let p = asked::number(rt, Verb::Write, 1)?;
        let l = slope(rt, p)?;
        let first = asked::number(rt, Verb::Write, 3)?;
        judged(rt, p, l)?;
        if first.saturating_add(texts) > words::LARGEST + 1 {
            return Err(too_many(rt));
        }
        Ok(Plan { p, l, first, texts })
    }

    // Each text is read, written as a tile and laid as a record, one behind the other.
    fn write(&self, rt: &HostRuntime, new: &NewReel) -> Result<(), Told> {
        let mut text = io::large_buffer();
        let mut tile = io::large_buffer();
        let mut record = [0; RECORD];
        for k in 0..self.texts {
            let name = asked::word(rt, k.saturating_add(BEFORE))?;
            let text = self.text(rt, k, &name, &mut text)?;
            let tile = self.tile(rt, &name, text, &mut tile)?;
            let record = self.record(rt, k, &name, tile, &mut record)?;
            new.write(record)
                .map_err(|error| say::failed(rt, new.part.bytes(), error))?;
        }
        Ok(())
    }

    // Reads the k-th text.
    fn text<'r>(
        &self,
        rt: &HostRuntime,
        k: usize,
        name: &Word,
        room: &'r mut [u8],
    ) -> Result<&'r [u8], Told> {
        let name = name.bytes();
        if input::is_standard(name) && is_taken(rt, k) {
            return Err(input::failed(rt, name, streams::closed()));
        }
        let text = Input::open(rt, name)?.read(rt, room)?;
        if text.len() != promise::text_length(self.p) {
            return Err(self.wrong_length(rt, name));
        }
        Ok(text)
    }

    // Says how long a text has to be.
    fn wrong_length(&self, rt: &HostRuntime, name: &[u8]) -> Told {
        say::name(rt);
        say::words(rt, name);
        say::words(rt, b": refused 3: a text has ");
        say::number(rt, promise::text_length(self.p));
        say::words(rt, b" bytes at size ");
        say::number(rt, self.p);
        say::words(rt, b"\n");
        Told
    }

    // Makes the tile of a text.
    #[tactic(auto, using(crate::specs::Plan::tile_fits))]
    fn tile<'r>(
        &self,
        rt: &HostRuntime,
        name: &Word,
        text: &[u8],
        room: &'r mut [u8; 65536],
    ) -> Result<&'r [u8], Told> {
        let room = &mut room[..promise::tile_length(self.p)];
        match writer::write(Kind::New, self.p, self.l, text, room) {
            Ok(()) => Ok(room),
            Err(refusal) => Err(refused(rt, name.bytes(), refusal)),
        }
    }

    // Lays the record of the k-th tile.
    #[tactic(auto, using(crate::specs::Plan::laid_within))]
    fn record<'r>(
        &self,
        rt: &HostRuntime,
        k: usize,
        name: &Word,
        tile: &[u8],
        room: &'r mut [u8],
    ) -> Result<&'r [u8], Told> {
        let Ok(number) = u32::try_from(self.first.saturating_add(k)) else {
            return Err(too_many(rt));
        };
        let header = Header {
            mark: Mark::Plain,
            p: self.p,
            l: self.l,
            number,
            first: None,
            second: None,
        };
        match printer::lay(header, tile, room) {
            Ok(length) => Ok(&room[..length]),
            Err(refusal) => Err(refused(rt, name.bytes(), refusal)),
        }
    }
}

// Was standard input read for a text before the k-th one? It is read to its end, and then it is closed for all that come behind.
fn is_taken(rt: &HostRuntime, k: usize) -> bool {
    (0..k).any(|j| is_text_standard(rt, j))
}

// Is standard input read for the j-th text?
fn is_text_standard(rt: &HostRuntime, j: usize) -> bool {
    asked::word(rt, j.saturating_add(BEFORE)).is_ok_and(|word| input::is_standard(word.bytes()))
}
