// The same y, another x.
#![tactic(auto)]

ghost use Rattle.std.specs.Prelude.{◌≡◌, ◌&&◌, ◌*◌, ◌≤◌, length, take};
ghost use Rattle.float.specs.Float.{finite};
ghost use Rattle.readings.specs.Readings.{within};
ghost use Rattle.rows.specs.Rows.{rows_of};
ghost use Rattle.project.specs.Project.{works, first_that_works, bounded, cut, interval, everywhere, inside, project};

use readings::Paid;
use rows::{Point, Row};

#[derive(Clone, Copy)]
pub struct Interval {
    pub low: f64,
    pub high: f64,
}

// x is finite, and every residual there is at most eps. An x that isn't finite takes no reading.
fn works(rows: &[f64], upto: usize, x: f64, y: f64, eps: f64, left: u64) -> Paid<bool>
    requires { 3 * upto ≤ length rows.now }
    ensures { result ≡ within left (works eps y (take upto (rows_of rows.now)) x) }
{
    if float::is_finite(x) {
        return scan::all_met(rows, upto, Point { x: x, y: y }, eps, left);
    }
    Ok((false, left))
}

// The first of some x that works.
fn first_that_works(
    rows: &[f64],
    upto: usize,
    xs: &[f64],
    y: f64,
    eps: f64,
    left: u64,
) -> Paid<Option<f64>>
    requires { 3 * upto ≤ length rows.now }
    ensures { result ≡ within left (first_that_works eps y (take upto (rows_of rows.now)) xs.now) }
{
    let mut rest = left;
    for x in xs {
        let (ok, after) = works(rows, upto, *x, y, eps, rest)?;
        rest = after;
        if ok {
            return Ok((Some(*x), rest));
        }
    }
    Ok((None, rest))
}

// The interval of x where a*x <= rhs, within another.
fn bounded(a: f64, rhs: f64, v: Interval) -> Option<Interval>
    ensures { result ≡ bounded a rhs v }
{
    if a > 0.0 {
        return Some(Interval {
            high: float::min(v.high, rhs / a),
            ..v
        });
    }
    if a < 0.0 {
        return Some(Interval {
            low: float::max(v.low, rhs / a),
            ..v
        });
    }
    if rhs < 0.0 {
        return None;
    }
    Some(v)
}

fn finite_row(r: Row) -> bool
    ensures { result ≡ finite r.a && finite r.b && finite r.c }
{
    float::is_finite(r.a) && float::is_finite(r.b) && float::is_finite(r.c)
}

// What a row leaves of an interval; nothing where a number is not finite.
fn cut_by(r: Row, y: f64, eps: f64, v: Interval) -> Option<Interval>
    ensures { result ≡ cut eps y r v }
{
    if finite_row(r) {
        let rhs = rounding::fused::fused(-r.b, y, r.c + eps);
        if float::is_finite(rhs) {
            return bounded(r.a, rhs, v);
        }
    }
    None
}

// What the rows before `upto` leave of all x.
fn interval_of(rows: &[f64], upto: usize, y: f64, eps: f64, left: u64) -> Paid<Option<Interval>>
    requires { 3 * upto ≤ length rows.now }
    ensures { result ≡ within left (interval eps y (take upto (rows_of rows.now)) everywhere) }
{
    let top = float::infinity();
    let mut v = Interval {
        low: -top,
        high: top,
    };
    let mut rest = left;
    for i in 0..upto {
        rest = readings::pay(rest, 1)?;
        match cut_by(rows::row_at(rows, i), y, eps, v) {
            Some(w) => v = w,
            None => return Ok((None, rest)),
        }
    }
    if v.low > v.high {
        return Ok((None, rest));
    }
    Ok((Some(v), rest))
}

// x moved into the interval, then its middle where both ends are finite, then its ends.
fn inside(
    rows: &[f64],
    upto: usize,
    x: f64,
    v: Interval,
    y: f64,
    eps: f64,
    left: u64,
) -> Paid<Option<f64>>
    requires { 3 * upto ≤ length rows.now }
    ensures { result ≡ within left (inside eps y (take upto (rows_of rows.now)) x (Some v)) }
{
    let moved = float::min(float::max(x, v.low), v.high);
    if float::is_finite(v.low) && float::is_finite(v.high) {
        let middle = 0.5 * v.low + 0.5 * v.high;
        return first_that_works(rows, upto, &[moved, middle, v.low, v.high], y, eps, left);
    }
    first_that_works(rows, upto, &[moved, v.low, v.high], y, eps, left)
}

// The point's own x, or else one of the interval that the rows before `upto` leave.
pub fn project_x_at_fixed_y(
    rows: &[f64],
    upto: usize,
    p: Point,
    eps: f64,
    left: u64,
) -> Paid<Option<f64>>
    requires { 3 * upto ≤ length rows.now }
    ensures { result ≡ within left (project (rows_of rows.now) upto p eps) }
{
    let (ok, rest) = works(rows, upto, p.x, p.y, eps, left)?;
    if ok {
        return Ok((Some(p.x), rest));
    }
    let (kept, after) = interval_of(rows, upto, p.y, eps, rest)?;
    match kept {
        Some(v) => inside(rows, upto, p.x, v, p.y, eps, after),
        None => Ok((None, after)),
    }
}
