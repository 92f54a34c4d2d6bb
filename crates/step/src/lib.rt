// One incremental step: a row is pinned, and the best point on it is found.
#![tactic(auto)]

ghost use Rattle.std.specs.Prelude.{◌≡◌, ◌+◌, ◌*◌, ◌≤◌, ◌<◌, length, take};
ghost use Rattle.readings.specs.Readings.{within};
ghost use Rattle.rows.specs.Rows.{rows_of};
ghost use Rattle.step.specs.Step.{steep_end, steep_step, uncrossed, chosen, flat_end, flat_step, step};

use active::Active;
use line::Span;
use readings::Paid;
use rows::{Point, Row};

// What a solve is posed over: half the width of the box, the tolerance of residuals, and that of reductions.
#[derive(Clone, Copy)]
pub struct Frame {
    pub bound: f64,
    pub epsilon: f64,
    pub reduced: f64,
}

// A point with the rows that it rests on.
#[derive(Clone, Copy)]
pub struct State {
    pub at: Point,
    pub active: Active,
}

// An x on the pinned line with the rows that it rests on.
#[derive(Clone, Copy)]
pub struct Chosen {
    pub x: f64,
    pub active: Active,
}

// The same state, written anew as `active::fresh` does. y is read by itself: read in one with x, which the step wrote apart from
// it, it would wait for both to reach memory.
pub fn fresh(s: State) -> State
    ensures { result ≡ s }
{
    let x = s.at.x;
    let y = float::settled(s.at.y);
    State {
        at: Point { x: x, y: y },
        active: active::fresh(s.active),
    }
}

// ---- a steep row

// The highest y on x = p*y - q, and not above the present one.
fn steep_end(p: f64, q: f64, i: usize, s: State, t: Span) -> Option<State>
    ensures { result ≡ steep_end p q i s t }
{
    if t.high != t.high {
        return None;
    }
    let y = float::min(t.high, s.at.y);
    Some(State {
        at: Point { x: p * y - q, y: y },
        active: active::set_second(i, t.active),
    })
}

fn steep_step(
    rows: &[f64],
    upto: usize,
    i: usize,
    r: Row,
    f: Frame,
    s: State,
    left: u64,
) -> Paid<Option<State>>
    requires { 3 * upto ≤ length rows.now }
    ensures { result ≡ within left (steep_step f (take upto (rows_of rows.now)) i r s) }
{
    let inverse = 1.0 / r.a;
    let p = -r.b * inverse;
    let q = -r.c * inverse;
    let (t, rest) = line::lp_1d_core(rows, upto, true, p, q, f.reduced, s.active, left)?;
    Ok((steep_end(p, q, i, s, t), rest))
}

// ---- a flat row

// Ends that cross within tolerance meet in the middle, and others leave nothing. NaN does not cross: a reduction that
// left no number passes.
fn uncrossed(eps: f64, s: Span) -> Option<Span>
    ensures { result ≡ uncrossed eps s }
{
    let high = s.high;
    let low = s.low;
    if high < low {
        let size = float::abs(low) + float::abs(high);
        if low - high > float::max(eps, 1e-13 * size) {
            return None;
        }
        let middle = 0.5 * (high + low);
        return Some(Span {
            high: middle,
            low: middle,
            ..s
        });
    }
    Some(s)
}

// The x with the highest y on y = p*x - q, the box standing in for a missing end; on a level line the x nearest 0.
fn choose(i: usize, p: f64, bound: f64, s: Span) -> Chosen
    ensures { result ≡ chosen i p bound s }
{
    let high = s.high;
    let low = s.low;
    let act = s.active;
    if p > 0.0 {
        let resting = active::set_second(i, act);
        if float::is_finite(high) {
            return Chosen {
                x: high,
                active: resting,
            };
        }
        return Chosen {
            x: float::max(low, bound),
            active: resting,
        };
    }
    if p < 0.0 {
        let resting = active::set_first(i, act);
        if float::is_finite(low) {
            return Chosen {
                x: low,
                active: resting,
            };
        }
        return Chosen {
            x: float::min(high, -bound),
            active: resting,
        };
    }
    if low > 0.0 {
        return Chosen {
            x: low,
            active: active::set_first(i, act),
        };
    }
    if high < 0.0 {
        return Chosen {
            x: high,
            active: active::set_second(i, act),
        };
    }
    Chosen {
        x: 0.0,
        active: active::set_first(i, active::no_rows()),
    }
}

fn flat_end(bound: f64, p: f64, q: f64, i: usize, left: Option<Span>) -> Option<State>
    ensures { result ≡ flat_end bound p q i left }
{
    let c = choose(i, p, bound, left?);
    Some(State {
        at: Point {
            x: c.x,
            y: p * c.x - q,
        },
        active: c.active,
    })
}

fn flat_step(
    rows: &[f64],
    upto: usize,
    i: usize,
    r: Row,
    f: Frame,
    s: State,
    left: u64,
) -> Paid<Option<State>>
    requires { 3 * upto ≤ length rows.now }
    ensures { result ≡ within left (flat_step f (take upto (rows_of rows.now)) i r s) }
{
    let inverse = 1.0 / r.b;
    let p = -r.a * inverse;
    let q = -r.c * inverse;
    let (t, rest) = line::lp_1d_core(rows, upto, false, p, q, f.reduced, s.active, left)?;
    Ok((flat_end(f.bound, p, q, i, uncrossed(f.epsilon, t)), rest))
}

// ---- the step

// Row `row` is pinned against the rows before `upto`; it fails where that shows the rows to be infeasible.
pub fn incre_step_2d(
    rows: &[f64],
    row: usize,
    upto: usize,
    f: Frame,
    s: State,
    left: u64,
) -> Paid<Option<State>>
    requires { (3 * upto ≤ length rows.now) × (3 * row + 2 < length rows.now) }
    ensures { result ≡ within left (step (rows_of rows.now) f upto row s) }
{
    let rest = readings::pay(left, 1)?;
    let r = rows::row_at(rows, row);
    if rows::no_boundary(r) {
        if r.c >= -f.epsilon {
            return Ok((Some(s), rest));
        }
        return Ok((None, rest));
    }
    if float::abs(r.a) > float::abs(r.b) {
        return steep_step(rows, upto, row, r, f, s, rest);
    }
    flat_step(rows, upto, row, r, f, s, rest)
}
