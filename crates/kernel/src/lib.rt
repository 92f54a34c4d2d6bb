// The static library: every public entry for C. Rows are lent. Everything else goes in by value, and what comes back is a
// record by value whose first number is the refusal's, 0 where there is none; every field of it has a value for every input.
#![tactic(auto)]

ghost use Rattle.std.specs.Prelude.{◌≡◌, length};
ghost use Rattle.rounding.specs.Root.{root};
ghost use Rattle.rounding.specs.Fused.{fused};
ghost use Rattle.rows.specs.Rows.{normalizing, normalized_flat, crossing};
ghost use Rattle.solve.specs.Solve.{silent};
ghost use Rattle.text.specs.Text.{written};
ghost use Rattle.reader.specs.Reader.{started, taken, fed, said, end_text, ended};
ghost use Rattle.reader.specs.Reader.{refusal_of as Reader·refusal_of};
ghost use Rattle.abi.specs.Records.{solved, source, of_normalized, crossed};
ghost use Rattle.abi.specs.Entries.{solving, solving_rows, solving_source, line_bounds, recovery};

use abi::{
    Crossed, LineBounds, LineTask, RecoveredPoint, RecoveryTask, SolveTask, Solved, SourceSolved,
};
use line::Tolerances;
use link::Fed;
use reader::Link;
use rows::{Point, Row};
use step::Frame;

// ---- root, fused multiply-add, normalising, the 2 by 2 system, one dimension

#[unsafe(no_mangle)]
pub extern "C" fn ravelsickle_root(x: f64) -> f64
    ensures { result ≡ root x }
{
    rounding::root::root(x)
}

#[unsafe(no_mangle)]
pub extern "C" fn ravelsickle_fused(x: f64, y: f64, z: f64) -> f64
    ensures { result ≡ fused x y z }
{
    rounding::fused::fused(x, y, z)
}

#[unsafe(no_mangle)]
pub extern "C" fn ravelsickle_normalize(rows: &mut [f64]) -> u64
    ensures answer { result ≡ of_normalized (normalizing rows.old) }
    ensures lent { rows.new ≡ normalized_flat rows.old }
{
    match rows::normalize_lp2d(rows) {
        Ok(()) => 0,
        Err(refusal) => u64::from(refusal),
    }
}

#[unsafe(no_mangle)]
pub extern "C" fn ravelsickle_solve_2x2(r: Row, s: Row) -> Crossed
    ensures { result ≡ crossed (crossing r s) }
{
    match rows::solve_2x2(r, s) {
        Ok(at) => Crossed {
            refusal: 0,
            x: at.x,
            y: at.y,
        },
        Err(refusal) => Crossed {
            refusal: u64::from(refusal),
            x: float::nan(),
            y: float::nan(),
        },
    }
}

#[unsafe(no_mangle)]
pub extern "C" fn ravelsickle_lp_1d(pairs: &[f64], task: LineTask) -> LineBounds
    ensures { result ≡ line_bounds task pairs.now }
{
    let tol = Tolerances {
        feasibility: task.feasibility,
        scale: task.scale,
    };
    match line::lp_1d(pairs, task.autonan, tol) {
        Ok(bounds) => LineBounds {
            refusal: 0,
            high: bounds.high,
            low: bounds.low,
        },
        Err(refusal) => LineBounds {
            refusal: u64::from(refusal),
            high: float::nan(),
            low: float::nan(),
        },
    }
}

// ---- recovery

#[unsafe(no_mangle)]
pub extern "C" fn ravelsickle_recover_2d_prefix(rows: &[f64], task: RecoveryTask) -> RecoveredPoint
    ensures { result ≡ recovery task rows.now }
{
    let at = Point {
        x: task.x0,
        y: task.y0,
    };
    let f = Frame {
        bound: task.bound,
        epsilon: task.epsilon,
        reduced: task.reduced,
    };
    let act = abi::collector_of(task);
    match recover::recover_2d_prefix(rows, task.upto, at, f, Some(act)) {
        Ok(found) => abi::recovered_at(0, found.at, active::held(found.collector)),
        Err(refusal) => {
            let nowhere = Point {
                x: float::nan(),
                y: float::nan(),
            };
            abi::recovered_at(u64::from(refusal), nowhere, act)
        }
    }
}

// ---- the solves: a number that names no mode is refused, whatever the rows are; any other task is the solve's own

#[unsafe(no_mangle)]
pub extern "C" fn ravelsickle_solve(rows: &mut [f64], task: SolveTask) -> Solved
    ensures answer { result ≡ solved (solving task rows.old).outcome }
    ensures lent { rows.new ≡ (solving task rows.old).rows }
{
    if abi::no_mode(task.normalize) {
        return abi::unsolved(abi::number_of(abi::refusal_of(rows, task)), 0);
    }
    let got = solve::solve(rows, abi::task_of(task), task.allowance);
    abi::solved_of(got)
}

// Over rows that are records.
#[unsafe(no_mangle)]
pub extern "C" fn ravelsickle_solve_rows(rows: &mut [Row], task: SolveTask) -> Solved
    ensures answer { result ≡ solved (solving_rows task rows.old).outcome }
    ensures lent { rows.new ≡ (solving_rows task rows.old).rows }
{
    if abi::no_mode(task.normalize) {
        return abi::unsolved_rows(rows.len(), task.normalize);
    }
    let got = lent::solve_rows(rows, abi::task_of(task), task.allowance);
    abi::solved_of(got)
}

// The source's own entry, with a silent collector. It does not look at the allowance.
#[unsafe(no_mangle)]
pub extern "C" fn ravelsickle_lp_2d_incre_max_y(rows: &mut [f64], task: SolveTask) -> SourceSolved
    ensures answer { result ≡ source (silent (solving_source task rows.old).outcome) }
    ensures lent { rows.new ≡ (solving_source task rows.old).rows }
{
    if abi::no_mode(task.normalize) {
        return abi::refused(abi::number_of(abi::refusal_of(rows, task)));
    }
    let got = solve::lp_2d_incre_max_y(rows, abi::task_of(task));
    abi::source_of(got)
}

// ---- records off a link: the state by value, the memory of the record in hand and of a line lent

#[unsafe(no_mangle)]
pub extern "C" fn ravelsickle_reader_start(limit: u64) -> Link
    ensures { result ≡ started limit }
{
    link::start(limit)
}

#[unsafe(no_mangle)]
pub extern "C" fn ravelsickle_reader_feed(
    link: Link,
    head: &mut [u8; record::ROWS_AT],
    rows: &mut [f64; record::FLOATS],
    bytes: &[u8],
    out: &mut [u8; link::LINE],
) -> Fed
    ensures refusal { result.refusal ≡ Reader·refusal_of link head.old }
    ensures taken { result.taken ≡ taken link head.old rows.old bytes.now }
    ensures link { result.link ≡ (fed link head.old rows.old result.taken bytes.now).link }
    ensures printed { result.printed ≡ length (said link head.old rows.old result.taken bytes.now) }
    ensures head { head.new ≡ (fed link head.old rows.old result.taken bytes.now).head }
    ensures rows { rows.new ≡ (fed link head.old rows.old result.taken bytes.now).rows }
    ensures out { out.new ≡ written out.old 0 (said link head.old rows.old result.taken bytes.now) }
{
    link::feed(link, head, rows, bytes, out)
}

#[unsafe(no_mangle)]
pub extern "C" fn ravelsickle_reader_end(
    link: Link,
    head: &[u8; record::ROWS_AT],
    out: &mut [u8; link::LINE],
) -> Fed
    ensures refusal { result.refusal ≡ Reader·refusal_of link head.now }
    ensures taken { result.taken ≡ 0 }
    ensures link { result.link ≡ ended link head.now }
    ensures printed { result.printed ≡ length (end_text link head.now) }
    ensures out { out.new ≡ written out.old 0 (end_text link head.now) }
{
    link::end(link, head, out)
}
