// The solve: the highest y under half-planes, over boxes that grow while the answer sits on their edge.
#![tactic(auto)]

ghost use Rattle.std.specs.Prelude.{◌≡◌, ◌*◌, ◌≤◌, length};
ghost use Rattle.rows.specs.Rows.{rows_of, flat_of};
ghost use Rattle.solve.specs.Solve.{Answered, number_of, answer, active_rows, allowed, refusal_of, solve, lp2d_incre_max_y, silent};

use active::Active;
use once::Task;
use readings::Spent;
use rows::Refusal;
use step::State;

#[derive(Clone, Copy)]
pub enum Answer {
    Point(f64, f64),
    Level(f64),
    Across(f64),
    Nothing,
}

// An answer with the active rows and the count.
#[derive(Clone, Copy)]
pub struct Solved {
    pub answer: Answer,
    pub active: Active,
    pub count: u64,
}

// Why there is no answer: refusal 3 with its count, which is the allowance; or one before a row was read.
#[derive(Clone, Copy, PartialEq, Eq)]
pub enum Unsolved {
    Stopped(u64),
    Refused(Refusal),
}

impl From<Unsolved> for u64 {
    ghost from_gives = { λ why n. n ≡ number_of why };

    fn from(why: Unsolved) -> u64 {
        match why {
            Unsolved::Stopped(_) => 3,
            Unsolved::Refused(refusal) => u64::from(refusal),
        }
    }
}

pub type Outcome = Result<Solved, Unsolved>;

// ---- what comes back

fn answer_of(found: Option<State>) -> Answer
    ensures { result ≡ answer found }
{
    match found {
        None => Answer::Nothing,
        Some(s) => {
            let p = s.at;
            if p.x != p.x {
                if p.y != p.y {
                    return Answer::Nothing;
                }
                return Answer::Level(p.y);
            }
            if p.y != p.y {
                return Answer::Across(p.x);
            }
            Answer::Point(p.x, p.y)
        }
    }
}

fn active_rows(found: Option<State>) -> Active
    ensures { result ≡ active_rows found }
{
    match found {
        None => active::no_rows(),
        Some(s) => active::fresh(s.active),
    }
}

fn answered(found: Option<State>, count: u64) -> Outcome
    ensures { result ≡ Answered (answer found) (active_rows found) count }
{
    Ok(Solved {
        answer: answer_of(found),
        active: active_rows(found),
        count: count,
    })
}

// ---- no row, one row, and more

// No row, or one: nothing is normalised, and the count is the row count.
fn few(rows: &[f64], n: usize, task: Task, allowance: u64) -> Outcome
    requires { (3 * n ≡ length rows.now) × (n ≤ 1) }
    ensures answer { result ≡ (allowed task allowance (rows_of rows.now)).outcome }
    ensures lent { rows.now ≡ flat_of (allowed task allowance (rows_of rows.now)).rows }
{
    if n == 0 {
        return answered(None, 0);
    }
    if allowance == 0 {
        return Err(Unsolved::Stopped(0));
    }
    answered(once::lone(rows::row_at(rows, 0)), 1)
}

// Two rows or more: seven solves at most, each of the rows as the one before left them, normalised again, and over a larger
// box. The seventh returns, whatever it finds.
fn many(rows: &mut [f64], n: usize, task: Task, allowance: u64) -> Outcome
    requires { (3 * n ≡ length rows.old) × (2 ≤ n) }
    ensures answer { result ≡ (allowed task allowance (rows_of rows.old)).outcome }
    ensures lent { rows.new ≡ flat_of (allowed task allowance (rows_of rows.old)).rows }
{
    let mut bound = 1e6;
    let mut left = allowance;
    let mut k = 0usize;
    // No `for`: the seventh solve returns whatever it finds, and no statement stands behind the loop.
    loop {
        match once::solve_once(rows, n, task, task.normalize, bound, left) {
            Err(Spent) => return Err(Unsolved::Stopped(allowance)),
            Ok((round, over)) => {
                if k == 6 || !round.sits_on_box {
                    return answered(round.found, allowance - over);
                }
                left = over;
            }
        }
        bound = bound * 1e3;
        k += 1;
    }
}

// Any number of rows.
fn of_rows(rows: &mut [f64], n: usize, task: Task, allowance: u64) -> Outcome
    requires { 3 * n ≡ length rows.old }
    ensures answer { result ≡ (allowed task allowance (rows_of rows.old)).outcome }
    ensures lent { rows.new ≡ flat_of (allowed task allowance (rows_of rows.old)).rows }
{
    if n < 2 {
        return few(rows, n, task, allowance);
    }
    many(rows, n, task, allowance)
}

// ---- the entries

// Which refusal the input of a solve gets before a row is read.
pub fn refusal_of(rows: &[f64], task: Task) -> Option<Refusal>
    ensures { result ≡ refusal_of task rows.now }
{
    rows::count(3, rows.len()).err()
}

// Public: the solve within an allowance, with the active rows and the count. Refusals 1 and 2 leave the lent rows as they
// were; refusal 3 leaves them as after the last normalisation whose readings all fitted.
pub fn solve(rows: &mut [f64], task: Task, allowance: u64) -> Outcome
    ensures answer { result ≡ (solve task allowance rows.old).outcome }
    ensures lent { rows.new ≡ (solve task allowance rows.old).rows }
{
    match refusal_of(rows, task) {
        Some(refusal) => Err(Unsolved::Refused(refusal)),
        None => of_rows(rows, rows.len() / 3, task, allowance),
    }
}

// Public: the source's own entry, with no allowance and a silent collector.
pub fn lp_2d_incre_max_y(rows: &mut [f64], task: Task) -> Result<Answer, Unsolved>
    ensures answer { result ≡ silent (lp2d_incre_max_y task rows.old).outcome }
    ensures lent { rows.new ≡ (lp2d_incre_max_y task rows.old).rows }
{
    let got = solve(rows, task, u64::MAX)?;
    Ok(got.answer)
}
