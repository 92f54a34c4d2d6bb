// The entries over what a caller lends: a collector that is a record, and rows that are records.
#![tactic(auto)]

ghost use Rattle.std.specs.Prelude.{◌≡◌, ◌+◌, ◌*◌, ◌≤◌, ◌<◌, length, set, take};
ghost use Rattle.active.specs.Active.{no_rows, set_first, set_second};
ghost use Rattle.rows.specs.Constants.{most_rows};
ghost use Rattle.rows.specs.Rows.{rows_of, row_at};
ghost use Rattle.recover.specs.Recover.{recovering};
ghost use Rattle.solve.specs.Solve.{solve};
ghost use Rattle.by_value.specs.ByValue.{kept, answered, remains};
ghost use Rattle.lent.specs.Lent.{solve_rows};

use active::Active;
use once::Task;
use recover::Recovered;
use rows::{Point, Refusal, Row};
use solve::{Outcome, Unsolved};
use step::Frame;

// ---- the collector, a record that is lent: what is stored there, and the entries that store it

// Public: no rows.
pub fn clear(c: &mut Active)
    ensures { c.new ≡ no_rows }
{
    *c = by_value::without();
}

// Public: row k is the first, and the second stays.
pub fn set_first(c: &mut Active, k: usize)
    ensures { c.new ≡ set_first k c.old }
{
    *c = by_value::with_first(k, *c);
}

// Public: row k is the second, and the first stays.
pub fn set_second(c: &mut Active, k: usize)
    ensures { c.new ≡ set_second k c.old }
{
    *c = by_value::with_second(k, *c);
}

// Public: the solve within an allowance, with the collector lent to it. It is left with the active rows; cleared by refusal 3;
// and as it was by 1 and 2.
pub fn solve_collecting(rows: &mut [f64], task: Task, allowance: u64, c: &mut Active) -> Outcome
    ensures answer { result ≡ (solve task allowance rows.old).outcome }
    ensures lent { rows.new ≡ (solve task allowance rows.old).rows }
    ensures collected { c.new ≡ kept c.old (solve task allowance rows.old).outcome }
{
    let outcome = solve::solve(rows, task, allowance);
    *c = by_value::kept(outcome, *c);
    outcome
}

// Recovery from a collector that is on.
fn recovering(
    rows: &[f64],
    upto: usize,
    at: Point,
    f: Frame,
    act: Active,
) -> Result<Recovered, Refusal>
    ensures { result ≡ recovering rows.now upto at f (Some act) }
{
    recover::recover_2d_prefix(rows, upto, at, f, Some(act))
}

// Public: recovery of the rows before `upto` from a point, with the collector lent to it. It is left with the rows of the point
// found, and as it was by any refusal: 1, 2, 7 and 6.
pub fn recover_collecting(
    rows: &[f64],
    upto: usize,
    at: Point,
    f: Frame,
    c: &mut Active,
) -> Result<Point, Refusal>
    ensures answer { result ≡ answered (recovering rows.now upto at f (Some c.old)) }
    ensures collected { c.new ≡ remains c.old (recovering rows.now upto at f (Some c.old)) }
{
    let r = recovering(rows, upto, at, f, *c);
    *c = by_value::remains(r, *c);
    by_value::answered(r)
}

// ---- rows that are records: the only functions that index them

fn get(rows: &[Row], k: usize) -> Row
    requires { k < length rows.now }
    ensures { result ≡ row_at rows.now k }
{
    rows[k]
}

fn put(rows: &mut [Row], k: usize, r: Row)
    requires { k < length rows.old }
    ensures { rows.new ≡ set rows.old k r }
{
    rows[k] = r;
}

// ---- from records to floats and back

// Row k of the floats becomes the record.
fn lay(flat: &mut [f64], k: usize, r: Row)
    requires { 3 * k + 2 < length flat.old }
    ensures laid { rows_of flat.new ≡ set (rows_of flat.old) k r }
    ensures as_long { length flat.new ≡ length flat.old }
{
    rows::put_row(flat, k, r);
}

// Row k of the floats, as a record.
fn lift(flat: &[f64], k: usize) -> Row
    requires { 3 * k + 2 < length flat.now }
    ensures { result ≡ row_at (rows_of flat.now) k }
{
    rows::row_at(flat, k)
}

// The first n rows, from records to floats.
fn gather(rows: &[Row], flat: &mut [f64], n: usize)
    requires { (n ≤ length rows.now) × (3 * n ≤ length flat.old) }
    ensures { take n (rows_of flat.new) ≡ take n rows.now }
{
    for k in 0..n {
        lay(flat, k, get(rows, k));
    }
}

// The first n rows, from floats to records.
fn scatter(flat: &[f64], rows: &mut [Row], n: usize)
    requires { (3 * n ≤ length flat.now) × (n ≤ length rows.old) }
    ensures { take n rows.new ≡ take n (rows_of flat.now) }
{
    for k in 0..n {
        put(rows, k, lift(flat, k));
    }
}

// The solve of n rows that lie first in the floats.
fn solve_first(flat: &mut [f64], n: usize, task: Task, allowance: u64) -> Outcome
    requires { 3 * n ≤ length flat.old }
    ensures answer { result ≡ (solve task allowance (take (3 * n) flat.old)).outcome }
    ensures lent { take (3 * n) flat.new ≡ (solve task allowance (take (3 * n) flat.old)).rows }
{
    let end = 3 * n;
    solve::solve(&mut flat[..end], task, allowance)
}

// The floats of the most rows that go by way of a small array, which costs little to make.
const FEW_FLOATS: usize = 3 * by_value::FEW;

// The floats of the most rows that are taken.
const MOST_FLOATS: usize = 3 * rows::MOST_ROWS;

// By way of an array of FLOATS floats.
fn solve_through<const FLOATS: usize>(rows: &mut [Row], task: Task, allowance: u64) -> Outcome
    requires { (3 * length rows.old ≤ FLOATS) × (FLOATS ≤ 3 * most_rows) }
    ensures answer { result ≡ (solve_rows task allowance rows.old).outcome }
    ensures lent { rows.new ≡ (solve_rows task allowance rows.old).rows }
{
    let mut flat = [0.0; FLOATS];
    let n = rows.len();
    gather(rows, &mut flat, n);
    let outcome = solve_first(&mut flat, n, task, allowance);
    scatter(&flat, rows, n);
    outcome
}

// Public: the solve of rows that are records, which answers and leaves what `solve` does of their floats, one row after the
// other. Refusal 2 above 4,096 rows; refusal 1 cannot occur.
pub fn solve_rows(rows: &mut [Row], task: Task, allowance: u64) -> Outcome
    ensures answer { result ≡ (solve_rows task allowance rows.old).outcome }
    ensures lent { rows.new ≡ (solve_rows task allowance rows.old).rows }
{
    let n = rows.len();
    if let Some(refusal) = by_value::refusal(n) {
        return Err(Unsolved::Refused(refusal));
    }
    if by_value::is_few(n) {
        return solve_through::<FEW_FLOATS>(rows, task, allowance);
    }
    solve_through::<MOST_FLOATS>(rows, task, allowance)
}
