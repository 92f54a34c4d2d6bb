// Scans of residuals: the first row that fails ends a scan.
#![tactic(auto)]

ghost use Rattle.std.specs.Prelude.{◌≡◌, cond, ◌*◌, ◌≤◌, length, take};
ghost use Rattle.readings.specs.Readings.{within};
ghost use Rattle.rows.specs.Rows.{rows_of};
ghost use Rattle.scan.specs.Scan.{every, meets, not_above};

use readings::Paid;
use rows::{Point, Row};

// Projection's test where STRICT, and rebuilding's where not: a NaN residual fails the first and passes the second.
fn passes<const STRICT: bool>(eps: f64, p: Point, r: Row) -> bool
    ensures { result ≡ cond STRICT (meets eps p) (not_above eps p) r }
{
    let v = rows::residual(r, p);
    if STRICT { v <= eps } else { !(v > eps) }
}

// Both scans, each a loop of its own in the built code.
fn every<const STRICT: bool>(rows: &[f64], upto: usize, p: Point, eps: f64, left: u64) -> Paid<bool>
    requires { 3 * upto ≤ length rows.now }
    ensures { result ≡ within left (every (cond STRICT (meets eps p) (not_above eps p)) (take upto (rows_of rows.now))) }
{
    let mut rest = left;
    for i in 0..upto {
        rest = readings::pay(rest, 1)?;
        if !passes::<STRICT>(eps, p, rows::row_at(rows, i)) {
            return Ok((false, rest));
        }
    }
    Ok((true, rest))
}

// Every residual is at most eps: a NaN fails.
pub fn all_met(rows: &[f64], upto: usize, p: Point, eps: f64, left: u64) -> Paid<bool>
    requires { 3 * upto ≤ length rows.now }
    ensures { result ≡ within left (every (meets eps p) (take upto (rows_of rows.now))) }
{
    every::<true>(rows, upto, p, eps, left)
}

// No residual is above eps: a NaN passes.
pub fn none_above(rows: &[f64], upto: usize, p: Point, eps: f64, left: u64) -> Paid<bool>
    requires { 3 * upto ≤ length rows.now }
    ensures { result ≡ within left (every (not_above eps p) (take upto (rows_of rows.now))) }
{
    every::<false>(rows, upto, p, eps, left)
}
