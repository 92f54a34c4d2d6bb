// One solve over one box: the rows prepared, the box that a start widens, both passes, and whether the answer sits on the box.
#![tactic(auto)]

ghost use Rattle.std.specs.Prelude.{◌≡◌, ◌&&◌, ◌*◌, length};
ghost use Rattle.float.specs.Float.{finite};
ghost use Rattle.readings.specs.Readings.{within};
ghost use Rattle.rows.specs.Rows.{rows_of};
ghost use Rattle.readings.specs.Readings.{paying};
ghost use Rattle.once.specs.Once.{prepared, leaves, widened, begun, passes, saturated, one_round, solving_once, lone};

use line::Tolerances;
use readings::{Paid, Spent};
use rows::{Point, Row};
use step::State;

// Where a solve starts, and how many leading rows its forward pass skips.
#[derive(Clone, Copy)]
pub struct WarmStart {
    pub x: f64,
    pub y: f64,
    pub skip: usize,
}

// How the lent rows are normalised before each solve.
#[derive(Clone, Copy)]
pub enum Normalize {
    Off,
    Source,
}

#[derive(Clone, Copy)]
pub struct Task {
    pub tol: Tolerances,
    pub start: WarmStart,
    pub normalize: Normalize,
}

// What a solve over one box found, and whether that sits on the box.
#[derive(Clone, Copy)]
pub struct Round {
    pub found: Option<State>,
    pub sits_on_box: bool,
}

// The n rows as a solve works on them, and the readings left then. Normalising writes no row unless all its readings are left.
fn prepare(rows: &mut [f64], n: usize, mode: Normalize, left: u64) -> Result<u64, Spent>
    requires { 3 * n ≡ length rows.old }
    ensures answer { result ≡ paying left (prepared mode (rows_of rows.old)).readings }
    ensures lent { rows.new ≡ leaves rows.old (within left (prepared mode (rows_of rows.old))) }
{
    match mode {
        Normalize::Off => Ok(left),
        Normalize::Source => {
            let rest = readings::pay(left, n as u64)?;
            rows::normalize(rows, n);
            Ok(rest)
        }
    }
}

fn both_finite(x: f64, y: f64) -> bool
    ensures { result ≡ (finite x && finite y) }
{
    float::is_finite(x) && float::is_finite(y)
}

// A finite start outside the box widens it. Of two sizes a comparison gives the larger: no size is a -0.
fn widened(start: WarmStart, bound: f64) -> f64
    ensures { result ≡ widened start bound }
{
    let level = float::settled(start.y); // read by itself, as in `begun`
    if !both_finite(start.x, level) {
        return bound;
    }
    let x = float::abs(start.x);
    let y = float::abs(level);
    if x > bound || y > bound {
        let larger = if x < y { y } else { x };
        return 1e3 * larger;
    }
    bound
}

// A start level of exactly 1e6 is the edge of a larger box. The level is read by itself: read in one with x, from which it may
// have been stored apart, it would wait for both to reach memory.
fn begun(start: WarmStart, bound: f64) -> Point
    ensures { result ≡ begun start bound }
{
    let level = float::settled(start.y);
    if level == 1e6 && bound > 1e6 {
        return Point {
            x: start.x,
            y: bound,
        };
    }
    Point {
        x: start.x,
        y: level,
    }
}

// The answer sits on the box.
fn is_saturated(p: Point, bound: f64) -> bool
    ensures { result ≡ saturated p bound }
{
    if !both_finite(p.x, p.y) {
        return false;
    }
    let edge = 0.5 * bound;
    p.y >= edge || float::abs(p.x) >= edge
}

// Both passes over n rows as they stand.
fn both_passes(rows: &[f64], n: usize, task: Task, bound: f64, left: u64) -> Paid<Option<State>>
    requires { 3 * n ≡ length rows.now }
    ensures { result ≡ within left (passes task (rows_of rows.now) bound) }
{
    let tol = task.tol;
    let start = task.start;
    let f = passes::frame(bound, tol.feasibility, tol.scale);
    let s = State {
        at: begun(start, bound),
        active: active::no_rows(),
    };
    let (found, rest) = passes::forward(rows, n, start.skip, tol.scale, f, s, left)?;
    match found {
        None => Ok((None, rest)),
        Some(t) => passes::deferred(rows, n, f, step::fresh(t), rest),
    }
}

// A solve over one box, of rows that are prepared.
fn one_round(rows: &[f64], n: usize, task: Task, bound: f64, left: u64) -> Paid<Round>
    requires { 3 * n ≡ length rows.now }
    ensures { result ≡ within left (one_round task (rows_of rows.now) (widened task.start bound)) }
{
    let wide = widened(task.start, bound);
    let (found, rest) = both_passes(rows, n, task, wide, left)?;
    let sits_on_box = match found {
        None => false,
        Some(s) => is_saturated(s.at, wide),
    };
    Ok((
        Round {
            found: found,
            sits_on_box: sits_on_box,
        },
        rest,
    ))
}

// A solve of two rows or more over one box: the rows are prepared, and what is left of the readings goes to the passes.
pub fn solve_once(
    rows: &mut [f64],
    n: usize,
    task: Task,
    mode: Normalize,
    bound: f64,
    left: u64,
) -> Paid<Round>
    requires { 3 * n ≡ length rows.old }
    ensures answer { result ≡ within left (solving_once task mode (rows_of rows.old) bound) }
    ensures lent { rows.new ≡ leaves rows.old (within left (prepared mode (rows_of rows.old))) }
{
    let rest = prepare(rows, n, mode, left)?;
    one_round(rows, n, task, bound, rest)
}

// One row alone bounds y where it is level.
pub fn lone(r: Row) -> Option<State>
    ensures { result ≡ lone r }
{
    if float::abs(r.a) < 1e-9 && r.b > 1e-9 {
        return Some(State {
            at: Point {
                x: float::nan(),
                y: r.c / r.b,
            },
            active: active::no_rows(),
        });
    }
    None
}
