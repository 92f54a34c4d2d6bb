// One dimension: the numbers t with a*t <= b for every term, and the rows that bound them.
#![tactic(auto)]

ghost use Rattle.std.specs.Prelude.{◌≡◌, true, false, map, ◌+◌, ◌*◌, ◌≤◌, ◌<◌, length, take};
ghost use Rattle.readings.specs.Readings.{within};
ghost use Rattle.rows.specs.Rows.{rows_of};
ghost use Rattle.active.specs.Active.{no_rows};
ghost use Rattle.line.specs.Line.{whole_line, void, coefficient_is_zero, cut_off, meeting, lp1d_core, on_line, pairs_of, pair_at, lp1d};

use active::Active;
use readings::{Paid, Spent};
use rows::{Refusal, Row};

// a*t <= b, and the size of the terms that cancelled into a.
#[derive(Clone, Copy)]
pub struct Term {
    pub a: f64,
    pub b: f64,
    pub scale: f64,
}

// The numbers from `low` to `high`, NaN at both ends where there are none, and the rows at the ends.
#[derive(Clone, Copy)]
pub struct Span {
    pub high: f64,
    pub low: f64,
    pub active: Active,
}

// What a term cuts off a span: nothing, all of it, or what lies above or below a number.
#[derive(Clone, Copy)]
pub enum Offcut {
    Nothing,
    All,
    Above(f64),
    Below(f64),
}

// The feasibility tolerance, and the factor by which it is scaled where a step goes from two dimensions to one.
#[derive(Clone, Copy)]
pub struct Tolerances {
    pub feasibility: f64,
    pub scale: f64,
}

// The highest and the lowest number.
#[derive(Clone, Copy)]
pub struct Bounds {
    pub high: f64,
    pub low: f64,
}

fn void(s: Span) -> Span
    ensures { result ≡ void s }
{
    Span {
        high: float::nan(),
        low: float::nan(),
        ..s
    }
}

// With `cancel` a coefficient counts as zero within the error of the terms that cancelled into it; without, where it is
// small beside b.
fn coefficient_is_zero(cancel: bool, t: Term) -> bool
    ensures { result ≡ coefficient_is_zero cancel t }
{
    if cancel {
        return float::abs(t.a) <= 3.330_669_073_875_47e-16 * t.scale;
    }
    float::abs(t.a) < float::clamp(float::abs(t.b), 1e-3, 1.0) * 1e-9
}

// What a term cuts off the numbers from `low` to `high`. The end is selected before the one rare branch.
fn cut_off(cancel: bool, eps: f64, t: Term, high: f64, low: f64) -> Offcut
    ensures { result ≡ cut_off cancel eps t high low }
{
    if coefficient_is_zero(cancel, t) {
        if t.b < -eps {
            return Offcut::All;
        }
        return Offcut::Nothing;
    }
    let up = t.a > 0.0;
    let edge = if up { high } else { low };
    if t.b < edge * t.a {
        let v = t.b / t.a;
        if up {
            return Offcut::Above(v);
        }
        return Offcut::Below(v);
    }
    Offcut::Nothing
}

fn between(high: f64, low: f64, first: Option<usize>, second: Option<usize>) -> Span
    ensures { result ≡ record { high = high; low = low; active = record { first = first; second = second } } }
{
    Span {
        high: high,
        low: low,
        active: Active {
            first: first,
            second: second,
        },
    }
}

// AUTONAN's ending: ends that cross within tolerance meet in the middle, and others leave nothing.
fn meeting(autonan: bool, eps: f64, s: Span) -> Span
    ensures { result ≡ meeting autonan eps s }
{
    if autonan {
        let high = s.high;
        let low = s.low;
        let size = float::abs(low) + float::abs(high);
        let room = float::max(eps, 1e-13 * size);
        if low <= high + room {
            if low <= high {
                return s;
            }
            let middle = 0.5 * (high + low);
            return Span {
                high: middle,
                low: middle,
                ..s
            };
        }
        return void(s);
    }
    s
}

// ---- rows on a pinned line

// A row on the line x = p*y - q where the pinned row is steep, and on y = p*x - q where it is not.
fn on_line(steep: bool, p: f64, q: f64, r: Row) -> Term
    ensures { result ≡ on_line steep p q r }
{
    if steep {
        let t = r.a * p;
        let size = float::abs(t) + float::abs(r.b);
        return Term {
            a: t + r.b,
            b: r.c + r.a * q,
            scale: size,
        };
    }
    let t = r.b * p;
    let size = float::abs(r.a) + float::abs(t);
    Term {
        a: r.a + t,
        b: r.c + r.b * q,
        scale: size,
    }
}

// The span that the rows before `upto` leave on the pinned one, with AUTONAN where that is steep. Each row takes a reading
// before its floats are read.
pub fn lp_1d_core(
    rows: &[f64],
    upto: usize,
    steep: bool,
    p: f64,
    q: f64,
    eps: f64,
    act: Active,
    left: u64,
) -> Paid<Span>
    requires { 3 * upto ≤ length rows.now }
    ensures { result ≡ within left (lp1d_core steep true eps (map (on_line steep p q) (take upto (rows_of rows.now))) 0 (whole_line act)) }
{
    let start = active::fresh(act);
    let mut high = float::infinity();
    let mut low = -high;
    let mut first = start.first;
    let mut second = start.second;
    let mut rest = left;
    for k in 0..upto {
        // No call of `pay` in this loop: a `Result` that holds a number costs four instructions a row.
        if rest == 0 {
            return Err(Spent);
        }
        rest -= 1;
        let t = on_line(steep, p, q, rows::row_at(rows, k));
        match cut_off(true, eps, t, high, low) {
            Offcut::Nothing => {}
            Offcut::Above(v) => {
                high = v;
                first = Some(k);
            }
            Offcut::Below(v) => {
                low = v;
                second = Some(k);
            }
            Offcut::All => {
                return Ok((void(between(high, low, first, second)), rest));
            }
        }
    }
    Ok((meeting(steep, eps, between(high, low, first, second)), rest))
}

// ---- pairs

fn pair_at(pairs: &[f64], k: usize) -> Term
    requires { 2 * k + 1 < length pairs.now }
    ensures { result ≡ pair_at (pairs_of pairs.now) k }
{
    let at = 2 * k;
    let at1 = 2 * k + 1;
    let a = pairs[at];
    let b = pairs[at1];
    Term {
        a: a,
        b: b,
        scale: 0.0,
    }
}

// The span that the first n pairs leave.
fn span_of(pairs: &[f64], n: usize, autonan: bool, eps: f64) -> Span
    requires { 2 * n ≡ length pairs.now }
    ensures { result ≡ (lp1d_core autonan false eps (pairs_of pairs.now) 0 (whole_line no_rows)).value }
{
    let mut high = float::infinity();
    let mut low = -high;
    let mut first = None;
    let mut second = None;
    for k in 0..n {
        match cut_off(false, eps, pair_at(pairs, k), high, low) {
            Offcut::Nothing => {}
            Offcut::Above(v) => {
                high = v;
                first = Some(k);
            }
            Offcut::Below(v) => {
                low = v;
                second = Some(k);
            }
            Offcut::All => {
                return void(between(high, low, first, second));
            }
        }
    }
    meeting(autonan, eps, between(high, low, first, second))
}

// Public: the highest and the lowest t with a*t <= b for every pair a, b; refusals 1 and 2.
pub fn lp_1d(pairs: &[f64], autonan: bool, tol: Tolerances) -> Result<Bounds, Refusal>
    ensures { result ≡ lp1d autonan tol pairs.now }
{
    let n = rows::count(2, pairs.len())?;
    let s = span_of(pairs, n, autonan, tol.feasibility);
    Ok(Bounds {
        high: float::settled(s.high),
        low: float::settled(s.low),
    })
}
