// Records read from bytes that come in portions, cut anywhere. The state between portions is a `Link` by value, and in lent
// memory what stands before the rows of the record in hand, and the floats of its rows: nothing of a body that is skipped.
#![tactic(auto)]

ghost use Rattle.std.specs.Prelude.{◌≡◌, true, ◌+◌, ◌≤◌, ◌<◌, ◌^◌, length, take};
ghost use Rattle.std.proofs.lemmas.List.Edits.{sets};
ghost use Rattle.text.specs.Sizes.{longest_line, longest_end};
ghost use Rattle.text.specs.Text.{written};
ghost use Rattle.record.specs.Record.{body_length, kind, size, refusal};
ghost use Rattle.reader.specs.Reader.{state, started, unfinished, listening, kept, up_to_end, fed, said, last_text};
ghost use Rattle.reader.specs.Parts.{word_on, rows_on, head_on, of_header, of_fields, of_rows, placed_up};

use rows::Refusal;
use solve::Unsolved;

// The bytes that count, at most.
pub const MOST_BYTES: u64 = 0x8000_0000_0000_0000;

#[repr(C)]
#[derive(Clone, Copy)]
pub struct Link {
    // 1 from the start until the end is told; a number, since C hands the record over and may put anything there.
    pub live: u64,
    // Lines printed so far.
    pub lines: u64,
    // Bytes that may still come and count.
    pub left: u64,
    // Bytes of the record in hand that were taken so far, held or passed over.
    pub passed: usize,
    // The bytes of a float of its rows of which not all are there, as a number with the latest on top.
    pub word: u64,
}

// What a turn leaves: the link, how many bytes of the portion it took, and where the printed text ends.
#[derive(Clone, Copy)]
pub struct Took {
    pub link: Link,
    pub taken: usize,
    pub at: usize,
}

// At most `limit` bytes count, and no more than 2^63.
pub fn start(limit: u64) -> Link
    ensures { result ≡ started limit }
{
    let left = if limit < MOST_BYTES {
        limit
    } else {
        MOST_BYTES
    };
    Link {
        live: 1,
        lines: 0,
        left: left,
        passed: 0,
        word: 0,
    }
}

// ---- the record in hand by its header

// Refusal 9, 10 or 2 with a normalise byte of 0.
fn refusal_by_header(head: &[u8; record::ROWS_AT]) -> Option<Refusal>
    ensures { result ≡ refusal (kind head.now) (body_length head.now) 0 }
{
    record::refusal(record::kind_of(head), record::body_length(head), 0)
}

fn kept_of(head: &[u8; record::ROWS_AT]) -> usize
    ensures { result ≡ kept head.now }
{
    match refusal_by_header(head) {
        Some(refusal) if refusal != Refusal::TooMany => record::HEADER,
        _ => record::ROWS_AT,
    }
}

fn size_of(head: &[u8; record::ROWS_AT]) -> usize
    ensures value { result ≡ size head.now }
    ensures small { result < 2 ^ 33 }
{
    record::HEADER + record::body_length(head) as usize
}

fn is_unfinished(passed: usize, head: &[u8; record::ROWS_AT]) -> bool
    ensures { result ≡ unfinished passed head.now }
{
    if passed < record::HEADER {
        return true;
    }
    passed < size_of(head)
}

// The end is not told, and the numbers are such as a start and bytes can leave.
pub fn is_listening(link: Link, head: &[u8; record::ROWS_AT]) -> bool
    ensures { result ≡ listening link head.now }
{
    if link.live != 1 {
        return false;
    }
    if link.lines > MOST_BYTES {
        return false;
    }
    if link.left > MOST_BYTES - link.lines {
        return false;
    }
    is_unfinished(link.passed, head)
}

// ---- bytes that stand before the rows

// Bytes of the header, and how many.
fn take_header(passed: usize, head: &mut [u8; record::ROWS_AT], bytes: &[u8]) -> usize
    ensures taken { result ≡ of_header passed bytes.now }
    ensures head { head.new ≡ sets head.old passed (take result bytes.now) }
{
    if passed >= record::HEADER {
        return 0;
    }
    let n = (record::HEADER - passed).min(bytes.len());
    text::put(head, passed, &bytes[..n]);
    n
}

// Bytes of the body before the rows, and how many. They are held where they tell something.
fn take_fields(passed: usize, head: &mut [u8; record::ROWS_AT], bytes: &[u8]) -> usize
    ensures taken { result ≡ of_fields passed head.old bytes.now }
    ensures head { head.new ≡ head_on passed head.old (take result bytes.now) }
{
    let end = record::ROWS_AT.min(size_of(head));
    if passed >= end {
        return 0;
    }
    let n = (end - passed).min(bytes.len());
    if passed < kept_of(head) {
        text::put(head, passed, &bytes[..n]);
    }
    n
}

// ---- bytes of rows

// What bytes of rows come to: how many were taken, and the word afterwards.
#[derive(Clone, Copy)]
struct Rows {
    taken: usize,
    word: u64,
}

// Bytes of rows up to the record's end. They are passed over where the record is not to be solved.
fn take_rows(
    passed: usize,
    word: u64,
    head: &[u8; record::ROWS_AT],
    rows: &mut [f64; record::FLOATS],
    bytes: &[u8],
) -> Rows
    requires { passed ≤ size head.now }
    ensures taken { result.taken ≡ of_rows passed head.now bytes.now }
    ensures fits { passed + result.taken < 2 ^ 64 }
    ensures word { result.word ≡ word_on passed word head.now (take result.taken bytes.now) }
    ensures rows { rows.new ≡ rows_on passed word head.now rows.old (take result.taken bytes.now) }
{
    if passed < record::ROWS_AT {
        return Rows {
            taken: 0,
            word: word,
        };
    }
    let n = (size_of(head) - passed).min(bytes.len());
    if refusal_by_header(head).is_some() {
        return Rows {
            taken: n,
            word: word,
        };
    }
    let now = gather::push_rows(word, rows, passed - record::ROWS_AT, &bytes[..n]);
    Rows {
        taken: n,
        word: now,
    }
}

// ---- a turn

// Bytes of the record in hand take their places, up to its end.
fn place(
    link: Link,
    head: &mut [u8; record::ROWS_AT],
    rows: &mut [f64; record::FLOATS],
    bytes: &[u8],
) -> Link
    requires head_value { unfinished link.passed head.old ≡ true }
    requires bytes_len_bound { length bytes.now ≤ link.left }
    ensures link { result ≡ (placed_up (state link head.old rows.old) bytes.now).link }
    ensures head { head.new ≡ (placed_up (state link head.old rows.old) bytes.now).head }
    ensures rows { rows.new ≡ (placed_up (state link head.old rows.old) bytes.now).rows }
{
    let first = take_header(link.passed, head, bytes);
    let from = first + take_fields(link.passed + first, head, &bytes[first..]);
    let rows = take_rows(link.passed + from, link.word, head, rows, &bytes[from..]);
    let n = from + rows.taken;
    Link {
        live: link.live,
        lines: link.lines,
        left: link.left - n as u64,
        passed: link.passed + n,
        word: rows.word,
    }
}

// A portion is taken up to the end of the record in hand, or all of it; the line of a record that is then all there is put into `out` from
// `at` on.
pub fn turn(
    link: Link,
    head: &mut [u8; record::ROWS_AT],
    rows: &mut [f64; record::FLOATS],
    bytes: &[u8],
    out: &mut [u8],
    at: usize,
) -> Took
    requires head_value { listening link head.old ≡ true }
    requires longest_line_in_bounds { at + longest_line ≤ length out.old }
    ensures taken { result.taken ≡ up_to_end (state link head.old rows.old) bytes.now }
    ensures link { result.link ≡ (fed link head.old rows.old result.taken bytes.now).link }
    ensures end { result.at ≡ at + length (said link head.old rows.old result.taken bytes.now) }
    ensures head { head.new ≡ (fed link head.old rows.old result.taken bytes.now).head }
    ensures rows { rows.new ≡ (fed link head.old rows.old result.taken bytes.now).rows }
    ensures out { out.new ≡ written out.old at (said link head.old rows.old result.taken bytes.now) }
{
    let counted = if (bytes.len() as u64) < link.left {
        bytes.len()
    } else {
        link.left as usize
    };
    let on = place(link, head, rows, &bytes[..counted]);
    if is_unfinished(on.passed, head) {
        return Took {
            link: on,
            taken: bytes.len(),
            at: at,
        };
    }
    let number = link.lines + 1;
    let got = record::outcome_of(head, rows);
    let end = text::put_line(out, at, number, got);
    let next = Link {
        live: link.live,
        lines: number,
        left: on.left,
        passed: 0,
        word: on.word,
    };
    Took {
        link: next,
        taken: on.passed - link.passed,
        at: end,
    }
}

// The end is told: the line of a record that is cut, and the closing count.
pub fn finish(link: Link, out: &mut [u8], at: usize) -> usize
    requires lines_bound { link.lines ≤ 2 ^ 63 }
    requires longest_end_in_bounds { at + longest_line + longest_end ≤ length out.old }
    ensures end { result ≡ at + length (last_text link) }
    ensures out { out.new ≡ written out.old at (last_text link) }
{
    if link.passed == 0 {
        return text::put_end(out, at, link.lines);
    }
    let number = link.lines + 1;
    let end = text::put_line(out, at, number, Err(Unsolved::Refused(Refusal::Cut)));
    text::put_end(out, end, number)
}
