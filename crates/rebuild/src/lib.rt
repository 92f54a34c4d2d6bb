// Another boundary: candidates, each pinned and tested, and the search for the best.
#![tactic(auto)]

ghost use Rattle.std.specs.Prelude.{◌≡◌, ◌||◌, ◌+◌, ◌*◌, ◌≤◌, ◌<◌, eqb, length, take};
ghost use Rattle.readings.specs.Readings.{within};
ghost use Rattle.rows.specs.Rows.{rows_of, row_at};
ghost use Rattle.rebuild.specs.Supports.{on_boundary, alone, factors, together, one_supports, two_support, supports};
ghost use Rattle.rebuild.specs.Rebuild.{ordered, plausible, tested, candidate, better, turn, rebuild};

use active::Active;
use readings::Paid;
use rows::{Point, Row};
use step::{Frame, State};

// What a row makes of the search: it goes on with the best so far, or it is won. `ControlFlow` has this shape, and its words, to
// continue and to break, would say less.
#[derive(Clone, Copy)]
pub enum Turn {
    On(Option<State>),
    Won(State),
}

// ---- the active rows hold the point up

// p lies on the boundary of r, within tolerance. (A NaN residual does.)
fn on_boundary(f: Frame, p: Point, r: Row) -> bool
    ensures { result ≡ on_boundary f p r }
{
    !(float::abs(rows::residual(r, p)) > f.epsilon)
}

// One row supports the objective together with the box.
fn alone(bound: f64, p: Point, r: Row) -> bool
    ensures { result ≡ alone bound p r }
{
    p.y == bound
        || (r.b > 0.0
            && (r.a == 0.0 || (r.a > 0.0 && p.x == -bound) || (r.a < 0.0 && p.x == bound)))
}

// Two rows support it where (0, 1) is a sum of their normals with no negative factor.
fn factors(u: f64, v: f64) -> bool
    ensures { result ≡ factors u v }
{
    float::is_finite(u) && float::is_finite(v) && u >= 0.0 && v >= 0.0
}

fn together(r: Row, s: Row) -> bool
    ensures { result ≡ together r s }
{
    if rows::singular(r, s) {
        return false;
    }
    let d = r.a * s.b - r.b * s.a;
    factors(-s.a / d, r.a / d)
}

// The pinned row is among them, and p lies on the boundary of each.
fn one_supports(f: Frame, pinned: usize, p: Point, i: usize, r: Row) -> bool
    ensures { result ≡ one_supports f pinned p i r }
{
    if pinned != i || !on_boundary(f, p, r) {
        return false;
    }
    alone(f.bound, p, r)
}

// The pinned row is one of the two.
fn among(pinned: usize, i: usize, j: usize) -> bool
    ensures { result ≡ (eqb pinned i || eqb pinned j) }
{
    pinned == i || pinned == j
}

fn two_support(f: Frame, pinned: usize, p: Point, i: usize, j: usize, r: Row, s: Row) -> bool
    ensures { result ≡ two_support f pinned p i j r s }
{
    if !among(pinned, i, j) || !on_boundary(f, p, r) || !on_boundary(f, p, s) {
        return false;
    }
    if i == j {
        return alone(f.bound, p, r);
    }
    together(r, s)
}

fn active_basis_supports_max_y(rows: &[f64], f: Frame, pinned: usize, p: Point, act: Active) -> bool
    ensures { result ≡ supports (rows_of rows.now) f pinned p act }
{
    match (act.first, act.second) {
        (None, _) => false,
        (Some(i), None) => one_supports(f, pinned, p, i, rows::row_or_zeros(rows, i)),
        (Some(i), Some(j)) => {
            let r = rows::row_or_zeros(rows, i);
            two_support(f, pinned, p, i, j, r, rows::row_or_zeros(rows, j))
        }
    }
}

// ---- a candidate

// A row stands in the first slot if there is one.
fn ordered(act: Active) -> Active
    ensures { result ≡ ordered act }
{
    if act.first.is_some() {
        return act;
    }
    Active {
        first: act.second,
        second: None,
    }
}

// Finite, no lower than the floor, no higher than the seed, and on the boundary of the pinned row.
fn plausible(f: Frame, top: f64, floor: f64, r: Row, p: Point) -> bool
    ensures { result ≡ plausible f top floor r p }
{
    if !float::is_finite(p.x) || !float::is_finite(p.y) || p.y < floor || p.y > top {
        return false;
    }
    on_boundary(f, p, r)
}

// No residual is above the tolerance, and the active rows, of which `pinned` is one, hold the point up.
fn tested(
    rows: &[f64],
    upto: usize,
    f: Frame,
    pinned: usize,
    s: State,
    left: u64,
) -> Paid<Option<State>>
    requires { 3 * upto ≤ length rows.now }
    ensures { result ≡ within left (tested (rows_of rows.now) f upto pinned s) }
{
    let (ok, rest) = scan::none_above(rows, upto, s.at, f.epsilon, left)?;
    if !ok {
        return Ok((None, rest));
    }
    let over = readings::pay(rest, 2)?;
    if active_basis_supports_max_y(rows, f, pinned, s.at, s.active) {
        return Ok((Some(s), over));
    }
    Ok((None, over))
}

// The best point on the boundary of row i, where it qualifies.
fn candidate(
    rows: &[f64],
    upto: usize,
    f: Frame,
    seed: Point,
    floor: f64,
    i: usize,
    r: Row,
    left: u64,
) -> Paid<Option<State>>
    requires { (3 * upto ≤ length rows.now) × (3 * i + 2 < length rows.now) }
    ensures { result ≡ within left (candidate (rows_of rows.now) f upto seed floor i r) }
{
    let fresh = State {
        at: seed,
        active: active::no_rows(),
    };
    let (found, rest) = step::incre_step_2d(rows, i, upto, f, fresh, left)?;
    match found {
        Some(s) if plausible(f, seed.y, floor, r, s.at) => {
            let resting = State {
                active: ordered(s.active),
                ..s
            };
            tested(rows, upto, f, i, resting, rest)
        }
        _ => Ok((None, rest)),
    }
}

// ---- the search

// The higher of two; the earlier of two at one level.
fn better(s: State, best: Option<State>) -> Option<State>
    ensures { result ≡ better s best }
{
    match best {
        Some(t) if !(s.at.y > t.at.y) => best,
        _ => Some(s),
    }
}

// A candidate on the level of the seed wins; a row without a boundary is passed over, and takes no reading.
fn turn_of(
    rows: &[f64],
    upto: usize,
    f: Frame,
    seed: Point,
    floor: f64,
    i: usize,
    best: Option<State>,
    left: u64,
) -> Paid<Turn>
    requires { (3 * upto ≤ length rows.now) × (i < upto) }
    ensures { result ≡ within left (turn (rows_of rows.now) f upto seed floor i (row_at (rows_of rows.now) i) best) }
{
    // Read even with no reading left: only its floats tell whether it has a boundary, and a row passed over takes none.
    let r = rows::row_at(rows, i);
    if rows::no_boundary(r) {
        return Ok((Turn::On(best), left));
    }
    let (found, rest) = candidate(rows, upto, f, seed, floor, i, r, left)?;
    match found {
        None => Ok((Turn::On(best), rest)),
        Some(s) if s.at.y == seed.y => Ok((Turn::Won(s), rest)),
        Some(s) => Ok((Turn::On(better(s, best)), rest)),
    }
}

// The best candidate of the rows before `upto`.
pub fn rebuild_2d_prefix(
    rows: &[f64],
    upto: usize,
    f: Frame,
    seed: Point,
    floor: f64,
    left: u64,
) -> Paid<Option<State>>
    requires { 3 * upto ≤ length rows.now }
    ensures { result ≡ within left (rebuild (rows_of rows.now) f upto seed floor (take upto (rows_of rows.now)) 0 None) }
{
    let mut best = None;
    let mut rest = left;
    for i in 0..upto {
        let (turn, over) = turn_of(rows, upto, f, seed, floor, i, best, rest)?;
        rest = over;
        match turn {
            Turn::Won(s) => return Ok((Some(s), rest)),
            Turn::On(found) => best = found,
        }
    }
    Ok((best, rest))
}
