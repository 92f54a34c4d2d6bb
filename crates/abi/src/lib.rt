// What crosses to C: records by value, each with a value in every field for every input, and what the entries make of them. C has
// no `Option` and no `Result`: a refusal, a kind and a mode are numbers here, and a row is a number with a flag beside it.
#![tactic(auto)]

ghost use Rattle.std.specs.Prelude.{◌≡◌, ◌*◌};
ghost use Rattle.rows.specs.Refusals.{code};
ghost use Rattle.rows.specs.Rows.{refusal};
ghost use Rattle.abi.specs.Records.{slot, has_row, row_number, answered, refused, with_rows, unsolved, solved, source, recovered_at};
ghost use Rattle.abi.specs.Entries.{task, no_mode, or_ten, refusal_of, collector};

use active::Active;
use line::Tolerances;
use once::{Normalize, Task, WarmStart};
use rows::{Point, Refusal};
use solve::{Answer, Outcome, Unsolved};

// What to solve, and how; `normalize` is 0 for not normalising, 1 for the source's, and no other number names a mode.
#[repr(C)]
#[derive(Clone, Copy)]
pub struct SolveTask {
    pub feasibility: f64,
    pub scale: f64,
    pub x0: f64,
    pub y0: f64,
    pub skip: usize,
    pub normalize: u64,
    pub allowance: u64,
}

// What a solve answers. A row's number means something only where its flag is true.
#[repr(C)]
#[derive(Clone, Copy)]
pub struct Solved {
    pub refusal: u64,
    pub kind: u64,
    pub x: f64,
    pub y: f64,
    pub count: u64,
    pub first: usize,
    pub second: usize,
    pub has_first: bool,
    pub has_second: bool,
}

// What the source's own entry answers.
#[repr(C)]
#[derive(Clone, Copy)]
pub struct SourceSolved {
    pub refusal: u64,
    pub kind: u64,
    pub x: f64,
    pub y: f64,
}

// The point on two boundaries.
#[repr(C)]
#[derive(Clone, Copy)]
pub struct Crossed {
    pub refusal: u64,
    pub x: f64,
    pub y: f64,
}

// How pairs are taken together.
#[repr(C)]
#[derive(Clone, Copy)]
pub struct LineTask {
    pub feasibility: f64,
    pub scale: f64,
    pub autonan: bool,
}

// The ends of a line.
#[repr(C)]
#[derive(Clone, Copy)]
pub struct LineBounds {
    pub refusal: u64,
    pub high: f64,
    pub low: f64,
}

// What to recover, with the caller's collector in the four last.
#[repr(C)]
#[derive(Clone, Copy)]
pub struct RecoveryTask {
    pub upto: usize,
    pub x0: f64,
    pub y0: f64,
    pub bound: f64,
    pub epsilon: f64,
    pub reduced: f64,
    pub first: usize,
    pub second: usize,
    pub has_first: bool,
    pub has_second: bool,
}

// What recovery answers, with the collector afterwards.
#[repr(C)]
#[derive(Clone, Copy)]
pub struct RecoveredPoint {
    pub refusal: u64,
    pub x: f64,
    pub y: f64,
    pub first: usize,
    pub second: usize,
    pub has_first: bool,
    pub has_second: bool,
}

// ---- a row or no row, as a flag and a number

pub fn slot_of(held: bool, row: usize) -> Option<usize>
    ensures { result ≡ slot held row }
{
    held.then_some(row)
}

pub fn has_row(found: Option<usize>) -> bool
    ensures { result ≡ has_row found }
{
    found.is_some()
}

pub fn row_number(found: Option<usize>) -> usize
    ensures { result ≡ row_number found }
{
    found.unwrap_or(0)
}

// ---- a solve's task

pub fn task_of(t: SolveTask) -> Task
    ensures { result ≡ task t }
{
    let mode = if t.normalize == 0 {
        Normalize::Off
    } else {
        Normalize::Source
    };
    Task {
        tol: Tolerances {
            feasibility: t.feasibility,
            scale: t.scale,
        },
        start: WarmStart {
            x: t.x0,
            y: t.y0,
            skip: t.skip,
        },
        normalize: mode,
    }
}

// No mode of normalising has this number.
pub fn no_mode(number: u64) -> bool
    ensures { result ≡ no_mode number }
{
    number > 1
}

// A refusal; where there is none, 10 for a number that names no mode.
pub fn or_ten(refusal: Option<Refusal>, mode: u64) -> Option<Refusal>
    ensures { result ≡ or_ten refusal mode }
{
    match refusal {
        None if no_mode(mode) => Some(Refusal::Malformed),
        _ => refusal,
    }
}

// Which refusal a solve's input gets before a row is read.
pub fn refusal_of(rows: &[f64], t: SolveTask) -> Option<Refusal>
    ensures { result ≡ refusal_of t rows.now }
{
    or_ten(solve::refusal_of(rows, task_of(t)), t.normalize)
}

// The number of a refusal, 0 where there is none.
pub fn number_of(refusal: Option<Refusal>) -> u64
    ensures { result ≡ code refusal }
{
    match refusal {
        None => 0,
        Some(refusal) => u64::from(refusal),
    }
}

// ---- what a solve answers

// A coordinate that the answer does not have is NaN.
pub fn answered(a: Answer) -> SourceSolved
    ensures { result ≡ answered a }
{
    match a {
        Answer::Point(x, y) => SourceSolved {
            refusal: 0,
            kind: 1,
            x: x,
            y: y,
        },
        Answer::Level(y) => SourceSolved {
            refusal: 0,
            kind: 2,
            x: float::nan(),
            y: y,
        },
        Answer::Across(x) => SourceSolved {
            refusal: 0,
            kind: 3,
            x: x,
            y: float::nan(),
        },
        Answer::Nothing => SourceSolved {
            refusal: 0,
            kind: 4,
            x: float::nan(),
            y: float::nan(),
        },
    }
}

// No answer at all.
pub fn refused(number: u64) -> SourceSolved
    ensures { result ≡ refused number }
{
    SourceSolved {
        refusal: number,
        kind: 0,
        x: float::nan(),
        y: float::nan(),
    }
}

// The same with the count and the active rows.
pub fn with_rows(s: SourceSolved, count: u64, act: Active) -> Solved
    ensures { result ≡ with_rows s count act }
{
    Solved {
        refusal: s.refusal,
        kind: s.kind,
        x: s.x,
        y: s.y,
        count: count,
        first: row_number(act.first),
        second: row_number(act.second),
        has_first: has_row(act.first),
        has_second: has_row(act.second),
    }
}

// A refusal has no active rows.
pub fn unsolved(number: u64, count: u64) -> Solved
    ensures { result ≡ unsolved number count }
{
    with_rows(refused(number), count, active::no_rows())
}

// Refusals 1 and 2 have no count.
pub fn solved_of(got: Outcome) -> Solved
    ensures { result ≡ solved got }
{
    match got {
        Ok(solved) => with_rows(answered(solved.answer), solved.count, solved.active),
        Err(Unsolved::Stopped(count)) => unsolved(u64::from(Unsolved::Stopped(count)), count),
        Err(Unsolved::Refused(refusal)) => unsolved(u64::from(refusal), 0),
    }
}

pub fn source_of(got: Result<Answer, Unsolved>) -> SourceSolved
    ensures { result ≡ source got }
{
    match got {
        Ok(answer) => answered(answer),
        Err(why) => refused(u64::from(why)),
    }
}

// Of n rows that are records, which always come out even.
pub fn unsolved_rows(n: usize, mode: u64) -> Solved
    ensures { result ≡ unsolved (code (or_ten (refusal 3 (3 * n)) mode)) 0 }
{
    if n > rows::MOST_ROWS {
        return unsolved(u64::from(Refusal::TooMany), 0);
    }
    unsolved(number_of(or_ten(None, mode)), 0)
}

// ---- recovery

// The caller's collector. A slot without its flag is no row.
pub fn collector_of(t: RecoveryTask) -> Active
    ensures { result ≡ collector t }
{
    Active {
        first: slot_of(t.has_first, t.first),
        second: slot_of(t.has_second, t.second),
    }
}

pub fn recovered_at(number: u64, p: Point, act: Active) -> RecoveredPoint
    ensures { result ≡ recovered_at number p act }
{
    RecoveredPoint {
        refusal: number,
        x: p.x,
        y: p.y,
        first: row_number(act.first),
        second: row_number(act.second),
        has_first: has_row(act.first),
        has_second: has_row(act.second),
    }
}
