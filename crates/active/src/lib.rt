// The two active rows of an answer, and what a caller's collector makes of them.
#![tactic(auto)]

ghost use Rattle.std.specs.Prelude.{◌≡◌};
ghost use Rattle.active.specs.Active.{no_rows, set_first, set_second};
ghost use Rattle.active.specs.Collector.{held, collected};

// The two active rows: on a line those of its upper and its lower end. "No row" is `None` and no number.
#[derive(Clone, Copy, PartialEq, Eq)]
pub struct Active {
    pub first: Option<usize>,
    pub second: Option<usize>,
}

pub fn no_rows() -> Active
    ensures { result ≡ no_rows }
{
    Active {
        first: None,
        second: None,
    }
}

pub fn set_first(k: usize, act: Active) -> Active
    ensures { result ≡ set_first k act }
{
    Active {
        first: Some(k),
        ..act
    }
}

pub fn set_second(k: usize, act: Active) -> Active
    ensures { result ≡ set_second k act }
{
    Active {
        second: Some(k),
        ..act
    }
}

// The same slot, written anew: the built code then moves a tag and a number, and not the bytes between them, which a copy
// would carry through memory round every row loop.
fn fresh_slot(slot: Option<usize>) -> Option<usize>
    ensures { result ≡ slot }
{
    match slot {
        None => None,
        Some(k) => Some(k),
    }
}

pub fn fresh(act: Active) -> Active
    ensures { result ≡ act }
{
    Active {
        first: fresh_slot(act.first),
        second: fresh_slot(act.second),
    }
}

// ---- a caller's collector: `None` is off, and stays off

// The rows that a call begins with.
pub fn held(coll: Option<Active>) -> Active
    ensures { result ≡ held coll }
{
    coll.unwrap_or(no_rows())
}

// What the collector holds after a call that found these rows.
pub fn collected(coll: Option<Active>, found: Active) -> Option<Active>
    ensures { result ≡ collected coll found }
{
    coll.and(Some(found))
}
