// What the entries over a caller's memory compute, by value: what a collector holds afterwards, what is answered and refused.
#![tactic(auto)]

ghost use Rattle.std.specs.Prelude.{◌≡◌, leb};
ghost use Rattle.active.specs.Active.{no_rows, set_first, set_second};
ghost use Rattle.by_value.specs.ByValue.{kept, answered, remains, few_rows, too_many};

use active::Active;
use recover::Recovered;
use rows::Point;
use solve::{Outcome, Unsolved};

// The most rows that go by way of the small array, which costs little to make.
pub const FEW: usize = 64;

// ---- the collector

pub fn without() -> Active
    ensures { result ≡ no_rows }
{
    active::no_rows()
}

pub fn with_first(k: usize, act: Active) -> Active
    ensures { result ≡ set_first k act }
{
    active::set_first(k, act)
}

pub fn with_second(k: usize, act: Active) -> Active
    ensures { result ≡ set_second k act }
{
    active::set_second(k, act)
}

// What a collector holds after a solve.
pub fn kept(outcome: Outcome, act: Active) -> Active
    ensures { result ≡ kept act outcome }
{
    match outcome {
        Ok(solved) => solved.active,
        Err(Unsolved::Stopped(_)) => active::no_rows(),
        Err(Unsolved::Refused(_)) => act,
    }
}

// ---- recovery

// What the caller is told.
pub fn answered(r: Result<Recovered, rows::Refusal>) -> Result<Point, rows::Refusal>
    ensures { result ≡ answered r }
{
    Ok(r?.at)
}

// What a collector holds after a recovery.
pub fn remains(r: Result<Recovered, rows::Refusal>, act: Active) -> Active
    ensures { result ≡ remains act r }
{
    match r {
        Ok(recovered) => active::held(recovered.collector),
        Err(_) => act,
    }
}

// ---- rows that are records

// The refusal of so many rows.
pub fn refusal(n: usize) -> Option<rows::Refusal>
    ensures { result ≡ too_many n }
{
    if n > rows::MOST_ROWS {
        Some(rows::Refusal::TooMany)
    } else {
        None
    }
}

// Whether so many rows go by way of the small array.
pub fn is_few(n: usize) -> bool
    ensures { result ≡ leb n few_rows }
{
    n <= FEW
}
