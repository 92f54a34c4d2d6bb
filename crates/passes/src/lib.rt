// The two passes of a solve over rows as they stand: the forward pass with its recoveries, and the deferred rounds.
#![tactic(auto)]

ghost use Rattle.std.specs.Prelude.{◌≡◌, ◌+◌, ◌*◌, ◌<◌, length, drop, not, ◌||◌};
ghost use Rattle.float.specs.Operators.{◌⊗◌, ◌≼◌, ◌≻◌};
ghost use Rattle.readings.specs.Readings.{within};
ghost use Rattle.rows.specs.Constants.{eps_rounding};
ghost use Rattle.rows.specs.Rows.{rows_of, row_at, weight};
ghost use Rattle.rows.specs.Rows.{residual as residual_of};
ghost use Rattle.float.specs.Float.{zero};
ghost use Rattle.passes.specs.Passes.{frame, repair, pivot, forward, excess, worst, none, deferred};

use readings::{Paid, Spent};
use rows::{Point, Row};
use step::{Frame, State};

// The largest excess of a deferred scan so far, and its row.
#[derive(Clone, Copy)]
pub struct Worst {
    pub excess: f64,
    pub row: Option<usize>,
}

// ---- the forward pass

// The residual is above the rounding of the row's terms. No size is below zero, so it is only taken of a residual above.
fn beyond_rounding(residual: f64, r: Row, p: Point) -> bool
    ensures { result ≡ (residual ≻ eps_rounding ⊗ weight r p) }
{
    if residual > 0.0 {
        return residual > 1e-13 * rows::weight(r, p);
    }
    false
}

pub fn frame(bound: f64, eps: f64, scale: f64) -> Frame
    ensures { result ≡ frame bound eps scale }
{
    Frame {
        bound: bound,
        epsilon: eps,
        reduced: eps * scale,
    }
}

// A failed trial of row i: recovery of the rows up to it at a quarter of the tolerance, and then, unless that is the same, at the
// tolerance. It begins at the state before the trial, of which nothing is in its collector.
fn repair(rows: &[f64], i: usize, scale: f64, f: Frame, s: State, left: u64) -> Paid<Option<State>>
    requires { 3 * i + 2 < length rows.now }
    ensures { result ≡ within left (repair scale (rows_of rows.now) f (i + 1) s) }
{
    let aim = frame(f.bound, f.epsilon * 0.25, scale);
    let (found, rest) = recover::recover_prefix(rows, i + 1, aim, s, left)?;
    if found.is_some() || aim.epsilon == f.epsilon {
        return Ok((found, rest));
    }
    recover::recover_prefix(rows, i + 1, f, s, rest)
}

// Row i is pinned; where its residual is at most the tolerance, a trial goes first, of which nothing is used but whether it failed.
fn pivot(
    rows: &[f64],
    i: usize,
    residual: f64,
    scale: f64,
    f: Frame,
    s: State,
    left: u64,
) -> Paid<Option<State>>
    requires inside { 3 * i + 2 < length rows.now }
    requires of_row { residual ≡ residual_of (row_at (rows_of rows.now) i) s.at }
    ensures { result ≡ within left (pivot scale (rows_of rows.now) f (row_at (rows_of rows.now) i) i s) }
{
    let mut rest = left;
    if residual <= f.epsilon {
        let (tried, over) = step::incre_step_2d(rows, i, i, f, s, rest)?;
        if tried.is_none() {
            return repair(rows, i, scale, f, s, over);
        }
        rest = over;
    }
    step::incre_step_2d(rows, i, i, f, s, rest)
}

// The n rows from row `skip` on, up to the first infeasible step. Each takes a reading before its floats are read.
pub fn forward(
    rows: &[f64],
    n: usize,
    skip: usize,
    scale: f64,
    f: Frame,
    start: State,
    left: u64,
) -> Paid<Option<State>>
    requires { 3 * n ≡ length rows.now }
    ensures { result ≡ within left (forward scale (rows_of rows.now) f (drop skip (rows_of rows.now)) skip start) }
{
    let mut s = start;
    let mut rest = left;
    for i in skip..n {
        // As in a reduction, no call of `pay`: it costs six instructions a row here.
        if rest == 0 {
            return Err(Spent);
        }
        rest -= 1; // a forward test
        let r = rows::row_at(rows, i);
        let residual = rows::residual(r, s.at);
        if beyond_rounding(residual, r, s.at) {
            let (found, over) = pivot(rows, i, residual, scale, f, s, rest)?;
            rest = over;
            match found {
                Some(t) => s = step::fresh(t),
                None => return Ok((None, rest)),
            }
        }
    }
    Ok((Some(s), rest)) // past the last row
}

// ---- the deferred rounds

// By how much a row is violated beyond the tolerance, or the rounding of its terms.
fn excess(eps: f64, r: Row, p: Point) -> f64
    ensures { result ≡ excess eps r p }
{
    rows::residual(r, p) - float::max(eps, 1e-13 * rows::weight(r, p))
}

// The excess can be above zero: the residual is, or the tolerance is below zero or NaN.
fn can_exceed(residual: f64, eps: f64) -> bool
    ensures { result ≡ (residual ≻ zero || not (zero ≼ eps)) }
{
    residual > 0.0 || !(eps >= 0.0)
}

// The first row with the largest excess above zero, of n rows.
fn worst_row(rows: &[f64], n: usize, p: Point, eps: f64, left: u64) -> Paid<Worst>
    requires { 3 * n ≡ length rows.now }
    ensures { result ≡ within left (worst eps p (rows_of rows.now) 0 none) }
{
    let mut w = Worst {
        excess: 0.0,
        row: None,
    };
    let mut rest = left;
    for i in 0..n {
        // As in a reduction, no call of `pay`.
        if rest == 0 {
            return Err(Spent);
        }
        rest -= 1; // a row of a deferred scan
        let r = rows::row_at(rows, i);
        if can_exceed(rows::residual(r, p), eps) {
            let e = excess(eps, r, p);
            if e > w.excess {
                w = Worst {
                    excess: e,
                    row: Some(i),
                };
            }
        }
    }
    Ok((w, rest))
}

// The worst row is pinned against all n rows, again and again until there is none, four times at most.
pub fn deferred(rows: &[f64], n: usize, f: Frame, start: State, left: u64) -> Paid<Option<State>>
    requires { 3 * n ≡ length rows.now }
    ensures { result ≡ within left (deferred 4 (rows_of rows.now) f start) }
{
    let mut s = start;
    let mut rest = left;
    for round in 0..4u32 {
        let (w, over) = worst_row(rows, n, s.at, f.epsilon, rest)?;
        let Some(i) = w.row else {
            return Ok((Some(s), over));
        };
        let (found, last) = step::incre_step_2d(rows, i, n, f, s, over)?;
        rest = last;
        match found {
            Some(t) => s = step::fresh(t),
            None => return Ok((None, last)),
        }
    }
    Ok((Some(s), rest))
}
