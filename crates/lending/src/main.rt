// Runs every entry of `lent` on worked cases, and prints what comes of each, a line a case: the collector that an entry leaves, or whether
// rows as records give what the same floats give.
#![tactic(auto)]

ghost use Rattle.std.specs.Prelude.{◌≡◌, ◌+◌, ◌*◌, ◌≤◌, Some, length, take};
ghost use Rattle.rows.specs.Constants.{most_rows};
ghost use Rattle.active.specs.Active.{no_rows, set_first, set_second};
ghost use Rattle.recover.specs.Recover.{recovering};
ghost use Rattle.solve.specs.Solve.{solve};
ghost use Rattle.by_value.specs.ByValue.{kept, answered, remains};
ghost use Rattle.lent.specs.Lent.{solve_rows};

use active::Active;
use line::Tolerances;
use once::{Normalize, Task, WarmStart};
use rows::{Point, Refusal, Row};
use solve::{Answer, Outcome, Unsolved};
use std::{fmt, io};
use step::Frame;

// One row more than is taken.
const ROWS: usize = rows::MOST_ROWS + 1;

// ---- each of these lends a record or rows to entries of `lent`, and gives back what they leave

// A collector after `set_first`, then `set_second`, then `clear`.
fn settings(c: Active, i: usize, j: usize) -> (Active, Active, Active)
    ensures { result ≡ (set_first i c, set_second j (set_first i c), no_rows) }
{
    let mut held = c;
    lent::set_first(&mut held, i);
    let first = held;
    lent::set_second(&mut held, j);
    let second = held;
    lent::clear(&mut held);
    (first, second, held)
}

fn collecting(rows: &mut [f64], task: Task, allowance: u64, c: Active) -> (Outcome, Active)
    ensures answer { result.0 ≡ (solve task allowance rows.old).outcome }
    ensures lent { rows.new ≡ (solve task allowance rows.old).rows }
    ensures collected { result.1 ≡ kept c (solve task allowance rows.old).outcome }
{
    let mut held = c;
    let outcome = lent::solve_collecting(rows, task, allowance, &mut held);
    (outcome, held)
}

fn recovering(
    rows: &[f64],
    upto: usize,
    at: Point,
    f: Frame,
    c: Active,
) -> (Result<Point, Refusal>, Active)
    ensures answer { result.0 ≡ answered (recovering rows.now upto at f (Some c)) }
    ensures collected { result.1 ≡ remains c (recovering rows.now upto at f (Some c)) }
{
    let mut held = c;
    let answer = lent::recover_collecting(rows, upto, at, f, &mut held);
    (answer, held)
}

// The first n rows are lent.
fn by_records(rows: [Row; ROWS], n: usize, task: Task, allowance: u64) -> (Outcome, [Row; ROWS])
    requires { n ≤ most_rows + 1 }
    ensures answer { result.0 ≡ (solve_rows task allowance (take n rows)).outcome }
    ensures lent { take n result.1 ≡ (solve_rows task allowance (take n rows)).rows }
{
    let mut held = rows;
    let outcome = lent::solve_rows(&mut held[..n], task, allowance);
    (outcome, held)
}

// ---- what is printed and compared: each of these is equal where all of it is, a float where its bits are, which print it

#[derive(Clone, Copy, PartialEq, Eq)]
struct Bits(u64);

impl From<f64> for Bits {
    fn from(x: f64) -> Bits {
        Bits(float::bits_of(x))
    }
}

impl fmt::Display for Bits {
    fn fmt<W: fmt::Write>(&self, f: &mut fmt::Formatter<W>) -> fmt::Result {
        write!(f, "{:016x}", self.0)
    }
}

// The number of a row, or none.
#[derive(Clone, Copy, PartialEq, Eq)]
struct Slot(Option<usize>);

impl fmt::Display for Slot {
    fn fmt<W: fmt::Write>(&self, f: &mut fmt::Formatter<W>) -> fmt::Result {
        match self.0 {
            None => f.write_str("-"),
            Some(k) => write!(f, "{k}"),
        }
    }
}

// The two rows that a collector holds.
#[derive(Clone, Copy, PartialEq, Eq)]
struct Rows(Active);

impl fmt::Display for Rows {
    fn fmt<W: fmt::Write>(&self, f: &mut fmt::Formatter<W>) -> fmt::Result {
        write!(f, "{} {}", Slot(self.0.first), Slot(self.0.second))
    }
}

// An answer.
#[derive(Clone, Copy, PartialEq, Eq)]
enum Said {
    Point(Bits, Bits),
    Level(Bits),
    Across(Bits),
    Nothing,
}

impl From<Answer> for Said {
    fn from(answer: Answer) -> Said {
        match answer {
            Answer::Point(x, y) => Said::Point(x.into(), y.into()),
            Answer::Level(y) => Said::Level(y.into()),
            Answer::Across(x) => Said::Across(x.into()),
            Answer::Nothing => Said::Nothing,
        }
    }
}

impl fmt::Display for Said {
    fn fmt<W: fmt::Write>(&self, f: &mut fmt::Formatter<W>) -> fmt::Result {
        match *self {
            Said::Point(x, y) => write!(f, "point {x} {y}"),
            Said::Level(y) => write!(f, "level {y}"),
            Said::Across(x) => write!(f, "across {x}"),
            Said::Nothing => f.write_str("nothing"),
        }
    }
}

// What comes of a solve: an answer with the active rows and the count, or why there is none.
#[derive(Clone, Copy, PartialEq, Eq)]
struct Told(Result<(Said, Rows, u64), Unsolved>);

impl From<Outcome> for Told {
    fn from(outcome: Outcome) -> Told {
        Told(outcome.map(|got| (got.answer.into(), Rows(got.active), got.count)))
    }
}

// A refusal that returns a count, with it.
impl fmt::Display for Told {
    fn fmt<W: fmt::Write>(&self, f: &mut fmt::Formatter<W>) -> fmt::Result {
        match self.0 {
            Ok((answer, active, count)) => write!(f, "{answer} {active} {count}"),
            Err(Unsolved::Stopped(count)) => {
                write!(f, "refused {} {count}", u64::from(Unsolved::Stopped(count)))
            }
            Err(Unsolved::Refused(refusal)) => write!(f, "refused {}", u64::from(refusal)),
        }
    }
}

// What comes of a recovery: a point, or why there is none.
#[derive(Clone, Copy)]
struct Recovery(Result<Point, Refusal>);

impl fmt::Display for Recovery {
    fn fmt<W: fmt::Write>(&self, f: &mut fmt::Formatter<W>) -> fmt::Result {
        match self.0 {
            Ok(at) => write!(f, "{} {}", Bits::from(at.x), Bits::from(at.y)),
            Err(refusal) => write!(f, "refused {}", u64::from(refusal)),
        }
    }
}

// ---- the collector

// Rows 5 and 9.
fn rows_5_9() -> Active {
    Active {
        first: Some(5),
        second: Some(9),
    }
}

fn sets(rt: &impl Print) -> io::Result<()> {
    let (first, second, cleared) = settings(active::no_rows(), 5, 9);
    println!(rt; "set_first, left {}", Rows(first))?;
    println!(rt; "set_second, left {}", Rows(second))?;
    println!(rt; "clear, left {}", Rows(cleared))
}

// Tolerance 1e-9, scale 10, start (0, 1e6), nothing skipped.
fn task_of(normalize: Normalize) -> Task {
    Task {
        tol: Tolerances {
            feasibility: 1e-9,
            scale: 10.0,
        },
        start: WarmStart {
            x: 0.0,
            y: 1e6,
            skip: 0,
        },
        normalize: normalize,
    }
}

// A solve with a collector that holds rows 5 and 9.
fn collects(rt: &impl Print, name: &str, rows: &mut [f64], allowance: u64) -> io::Result<()> {
    let (outcome, left) = collecting(rows, task_of(Normalize::Off), allowance, rows_5_9());
    println!(rt;
        "solve_collecting {name} {}, left {}",
        Told::from(outcome),
        Rows(left)
    )
}

fn recovers(
    rt: &impl Print,
    name: &str,
    rows: &[f64],
    upto: usize,
    at: Point,
    f: Frame,
    c: Active,
) -> io::Result<()> {
    let (answer, left) = recovering(rows, upto, at, f, c);
    println!(rt;
        "recover_collecting {name} {}, left {}",
        Recovery(answer),
        Rows(left)
    )
}

// ---- rows as records, beside the same rows as floats

// The next of numbers that go round from -1 to 1 in steps.
fn next(x: f64, by: f64) -> f64 {
    let y = x + by;
    if y > 1.0 { y - 2.0 } else { y }
}

// Rows of no order: a in -1..1, b in 0.5..2.5, c in 1..3.
fn filled() -> [f64; 3 * ROWS]
    ensures { length result ≡ 3 * (most_rows + 1) }
{
    let mut flat = [0.0; 3 * ROWS];
    let mut p = 0.0;
    let mut q = 0.0;
    let mut r = 0.0;
    for k in 0..ROWS {
        p = next(p, 0.7390851332151607);
        q = next(q, 0.5671432904097838);
        r = next(r, 0.4142135623730951);
        rows::put_row(
            &mut flat,
            k,
            Row {
                a: p,
                b: 1.5 + q,
                c: 2.0 + r,
            },
        );
    }
    flat
}

fn as_records(flat: &[f64; 3 * ROWS]) -> [Row; ROWS] {
    std::array::from_fn(|k| rows::row_at(flat, k))
}

fn bits_of(r: Row) -> (Bits, Bits, Bits) {
    (r.a.into(), r.b.into(), r.c.into())
}

// Whether all rows are the same, those that were not lent too.
fn same_rows(rows: [Row; ROWS], flat: &[f64; 3 * ROWS]) -> bool {
    (0..ROWS).all(|k| bits_of(rows[k]) == bits_of(rows::row_at(flat, k)))
}

// The first n rows are solved.
fn by_floats(flat: &mut [f64], n: usize, task: Task, allowance: u64) -> Outcome
    requires { 3 * n ≤ length flat.old }
{
    let end = 3 * n;
    solve::solve(&mut flat[..end], task, allowance)
}

// The first n rows, solved as records and as floats.
fn compares(rt: &impl Print, n: usize, normalize: Normalize, allowance: u64) -> io::Result<()>
    requires { n ≤ most_rows + 1 }
{
    let task = task_of(normalize);
    let mut flat = filled();
    let (outcome, rows) = by_records(as_records(&flat), n, task, allowance);
    let told = Told::from(outcome);
    let other = Told::from(by_floats(&mut flat, n, task, allowance));
    let word = if told == other && same_rows(rows, &flat) {
        "same"
    } else {
        "differs"
    };
    println!(rt; "solve_rows {n} {told}, {word}")
}

fn main(rt: HostRuntime) -> io::Result<()> {
    sets(&rt)?;
    collects(&rt, "S3", &mut [1.0, 1.0, 2.0, -1.0, 1.0, 0.0], 7)?;
    collects(
        &rt,
        "S3, one reading less",
        &mut [1.0, 1.0, 2.0, -1.0, 1.0, 0.0],
        6,
    )?;
    collects(&rt, "S4", &mut [0.0, 1.0, 1.0, 0.0, -1.0, -2.0], 1000)?;
    collects(&rt, "seven floats", &mut [0.0; 7], 1000)?;
    collects(&rt, "4097 rows", &mut [0.0; 3 * ROWS], 1000)?;
    // The next two are the original's.
    let one = [2.0, 2.0, -2.0];
    let edge = float::float_of(0x3FBF_5A4C_000A_EC40);
    let from = Point {
        x: float::float_of(0x4000_848B_69D3_9782),
        y: edge,
    };
    let frame = Frame {
        bound: edge,
        epsilon: 1.0,
        reduced: 10.0,
    };
    let alone = Active {
        first: Some(77),
        second: None,
    };
    recovers(&rt, "found", &one, 1, from, frame, alone)?;
    recovers(
        &rt,
        "nothing found",
        &[
            float::float_of(0xBFC9_78CC_777E_FAD1),
            float::float_of(0xBFE5_79CC_828A_A717),
            float::float_of(0x3FE0_B93B_0E77_E6CA),
        ],
        1,
        Point {
            x: float::infinity(),
            y: float::float_of(0x4003_92FC_746F_8EA0),
        },
        Frame {
            bound: 2.0,
            epsilon: 1.0,
            reduced: 10.0,
        },
        Active {
            first: None,
            second: Some(1),
        },
    )?;
    recovers(&rt, "two rows of one", &one, 2, from, frame, rows_5_9())?;
    recovers(&rt, "two floats", &[2.0, 2.0], 0, from, frame, rows_5_9())?;
    recovers(
        &rt,
        "4097 rows",
        &[0.0; 3 * ROWS],
        0,
        from,
        frame,
        rows_5_9(),
    )?;
    // As many rows as are taken, of which the last alone bounds y.
    let mut most = [0.0; 3 * rows::MOST_ROWS];
    rows::put_row(
        &mut most,
        rows::MOST_ROWS - 1,
        Row {
            a: 0.0,
            b: 1.0,
            c: 5.0,
        },
    );
    collects(&rt, "4096 rows", &mut most, 1000000)?;
    recovers(
        &rt,
        "4096 rows",
        &most,
        rows::MOST_ROWS,
        Point { x: 0.0, y: 1e6 },
        Frame {
            bound: 1e6,
            epsilon: 1e-9,
            reduced: 1e-8,
        },
        rows_5_9(),
    )?;
    compares(&rt, 2, Normalize::Off, 1000000)?;
    compares(&rt, 64, Normalize::Off, 1000000)?;
    compares(&rt, 65, Normalize::Source, 1000000)?;
    compares(&rt, 65, Normalize::Source, 100)?;
    compares(&rt, 2048, Normalize::Off, 1000000)?;
    compares(&rt, 4096, Normalize::Source, 1000000)?;
    compares(&rt, 4097, Normalize::Source, 1000000)
}
