// Recovery of a prefix after a failed step: another boundary, or else the point as it was.
#![tactic(auto)]

ghost use Rattle.std.specs.Prelude.{◌≡◌, ◌*◌, ◌≤◌, length};
ghost use Rattle.readings.specs.Readings.{within};
ghost use Rattle.rows.specs.Rows.{rows_of};
ghost use Rattle.active.specs.Collector.{held};
ghost use Rattle.recover.specs.Recover.{seed_of, floor_of, unmoved, on_boundaries, recover, recovering};

use active::Active;
use readings::Paid;
use rows::{Point, Refusal};
use step::{Frame, State};

// What `recover_2d_prefix` answers: the point, and the caller's collector afterwards.
#[derive(Clone, Copy)]
pub struct Recovered {
    pub at: Point,
    pub collector: Option<Active>,
}

// Where candidates start from.
fn seed_of(p: Point, fixed: Option<f64>) -> Point
    ensures { result ≡ seed_of p fixed }
{
    match fixed {
        None => p,
        Some(x) => Point { x: x, ..p },
    }
}

// The level below which none counts.
fn floor_of(f: Frame, p: Point, fixed: Option<f64>) -> f64
    ensures { result ≡ floor_of f p fixed }
{
    match fixed {
        None => -float::infinity(),
        Some(_) => p.y - f.epsilon,
    }
}

// The point as it was, with its active rows, where projection did not move it.
fn unmoved(s: State, fixed: Option<f64>) -> Option<State>
    ensures { result ≡ unmoved s fixed }
{
    if fixed? == s.at.x {
        return Some(s);
    }
    None
}

// On another boundary, or else at the point as it was.
fn on_boundaries(
    rows: &[f64],
    upto: usize,
    f: Frame,
    s: State,
    fixed: Option<f64>,
    left: u64,
) -> Paid<Option<State>>
    requires { 3 * upto ≤ length rows.now }
    ensures { result ≡ within left (on_boundaries (rows_of rows.now) f upto s fixed) }
{
    let seed = seed_of(s.at, fixed);
    let floor = floor_of(f, s.at, fixed);
    let (found, rest) = rebuild::rebuild_2d_prefix(rows, upto, f, seed, floor, left)?;
    match found {
        None => Ok((unmoved(s, fixed), rest)),
        Some(t) => Ok((Some(t), rest)),
    }
}

// Recovery of the rows before `upto`, as the solve uses it.
pub fn recover_prefix(
    rows: &[f64],
    upto: usize,
    f: Frame,
    s: State,
    left: u64,
) -> Paid<Option<State>>
    requires { 3 * upto ≤ length rows.now }
    ensures { result ≡ within left (recover (rows_of rows.now) f upto s) }
{
    let (fixed, rest) = project::project_x_at_fixed_y(rows, upto, s.at, f.epsilon, left)?;
    on_boundaries(rows, upto, f, s, fixed, rest)
}

// Where a caller's recovery begins: at its point, with the rows that its collector holds.
fn begun(at: Point, coll: Option<Active>) -> State
    ensures { result ≡ record { at = at; active = held coll } }
{
    State {
        at: at,
        active: active::held(coll),
    }
}

// Public: recovery of the rows before `upto` from a point and a caller's collector; refusals 1, 2, 7 and 6. A refusal gives
// no collector back: the caller's is as it was.
pub fn recover_2d_prefix(
    rows: &[f64],
    upto: usize,
    at: Point,
    f: Frame,
    coll: Option<Active>,
) -> Result<Recovered, Refusal>
    ensures { result ≡ recovering rows.now upto at f coll }
{
    let n = rows::count(3, rows.len())?;
    if upto > n {
        return Err(Refusal::PrefixTooLong);
    }
    let s = begun(at, coll);
    // Recovery never stops for want of readings: it takes fewer than these.
    let (found, _) = recover_prefix(rows, upto, f, s, u64::MAX).unwrap_or((None, 0));
    let t = found.ok_or(Refusal::NothingFound)?;
    let x = float::settled(t.at.x);
    let y = float::settled(t.at.y);
    Ok(Recovered {
        at: Point { x: x, y: y },
        collector: active::collected(coll, t.active),
    })
}
