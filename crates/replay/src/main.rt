// Replays the original's answers that standard input holds, one a line, and prints for each kind of line how many came out right:
//
//     root X = R
//     fused A B C = R
//     two M00 M01 M10 M11 V0 V1 = X Y | refused 5
//     norm n a b c .. = a b c ..
//     line AUTONAN TOL n a b .. = MAX MIN
//     recover UPTO X Y EPS REDUCED BOX FIRST SECOND n a b c .. = X Y FIRST SECOND | refused K FIRST SECOND
#![tactic(auto)]

use active::Active;
use line::Tolerances;
use recover::Recovered;
use rows::{Point, Refusal, Row};
use std::io;
use step::Frame;
use vectors::{Lines, Words};

// Each of these takes a line from its second word on.

fn root(words: Words) -> bool {
    let mut x = [0.0; 1];
    let (_, wanted) = words.read_floats(&mut x);
    wanted.are(&[rounding::root::root(x[0])])
}

fn fused(words: Words) -> bool {
    let mut m = [0.0; 3];
    let (_, wanted) = words.read_floats(&mut m);
    wanted.are(&[rounding::fused::fused(m[0], m[1], m[2])])
}

fn two(words: Words) -> bool {
    let mut m = [0.0; 6];
    let (_, wanted) = words.read_floats(&mut m);
    let first = Row {
        a: m[0],
        b: m[1],
        c: m[4],
    };
    let second = Row {
        a: m[2],
        b: m[3],
        c: m[5],
    };
    match rows::solve_2x2(first, second) {
        Ok(p) => wanted.are(&[p.x, p.y]),
        Err(refusal) => refusal == Refusal::Undecided && wanted.begin_with(b"refused 5\n"),
    }
}

fn norm(words: Words) -> bool {
    let mut room = [0.0; 12];
    let (rows, wanted) = words.skip(1).read_floats(&mut room);
    match rows::normalize_lp2d(rows) {
        Ok(()) => wanted.are(rows),
        Err(_) => false,
    }
}

fn line(words: Words) -> bool {
    let autonan = words.begin_with(b"1 ");
    let mut tolerance = [0.0; 1];
    words.skip(1).read_floats(&mut tolerance);
    let mut room = [0.0; 12];
    let (pairs, wanted) = words.skip(3).read_floats(&mut room);
    let tol = Tolerances {
        feasibility: tolerance[0],
        scale: 10.0,
    };
    match line::lp_1d(pairs, autonan, tol) {
        Ok(bounds) => wanted.are(&[bounds.high, bounds.low]),
        Err(_) => false,
    }
}

// The row that stands next by its number; `-` is none.
fn slot_at(words: Words) -> Option<usize> {
    Some(words.number()? as usize)
}

// Whether the two slots stand next.
fn collects(act: Active, words: Words) -> bool {
    act.first == slot_at(words) && act.second == slot_at(words.skip(1))
}

fn recovers(rows: &[f64], upto: usize, m: [f64; 5], before: Active, wanted: Words) -> bool {
    let point = Point { x: m[0], y: m[1] };
    let frame = Frame {
        bound: m[4],
        epsilon: m[2],
        reduced: m[3],
    };
    match recover::recover_2d_prefix(rows, upto, point, frame, Some(before)) {
        Ok(Recovered { at, collector }) => {
            wanted.are(&[at.x, at.y])
                && collector.is_some_and(|after| collects(after, wanted.skip(2)))
        }
        Err(refusal) => {
            wanted.begin_with(b"refused ")
                && wanted.skip(1).number() == Some(refusal.into())
                && collects(before, wanted.skip(2))
        }
    }
}

fn recovery(words: Words) -> bool {
    let Some(upto) = words.number() else {
        return false;
    };
    let mut m = [0.0; 5];
    words.skip(1).read_floats(&mut m);
    let before = Active {
        first: slot_at(words.skip(6)),
        second: slot_at(words.skip(7)),
    };
    let mut room = [0.0; 18];
    let (rows, wanted) = words.skip(9).read_floats(&mut room);
    recovers(rows, upto as usize, m, before, wanted)
}

// What the original answered.
#[derive(Clone, Copy)]
enum Kind {
    Root,
    Fused,
    Two,
    Norm,
    Line,
    Recover,
}

const KINDS: [Kind; 6] = [
    Kind::Root,
    Kind::Fused,
    Kind::Two,
    Kind::Norm,
    Kind::Line,
    Kind::Recover,
];

impl Kind {
    // What a line of this kind begins with.
    fn word(self) -> &'static [u8] {
        match self {
            Kind::Root => b"root ",
            Kind::Fused => b"fused ",
            Kind::Two => b"two ",
            Kind::Norm => b"norm ",
            Kind::Line => b"line ",
            Kind::Recover => b"recover ",
        }
    }

    // Whether a line of this kind, from its second word on, comes out as it says.
    fn holds(self, words: Words) -> bool {
        match self {
            Kind::Root => root(words),
            Kind::Fused => fused(words),
            Kind::Two => two(words),
            Kind::Norm => norm(words),
            Kind::Line => line(words),
            Kind::Recover => recovery(words),
        }
    }
}

// The lines of a kind.
fn replay(rt: &impl Print, text: &[u8], kind: Kind) -> io::Result<()> {
    let mut right = 0u64;
    let mut lines = 0u64;
    for line in Lines(text) {
        if line.begin_with(kind.word()) {
            lines += 1;
            if kind.holds(line.skip(1)) {
                right += 1;
            }
        }
    }
    rt.write_all(kind.word())?;
    vectors::report(rt, right, lines)
}

fn main(rt: HostRuntime) -> io::Result<()> {
    let mut text = [0u8; 262144];
    let n = vectors::read_full(&mut rt.stdin(), &mut text)?;
    for kind in KINDS {
        replay(&rt, &text[..n], kind)?;
    }
    Ok(())
}
