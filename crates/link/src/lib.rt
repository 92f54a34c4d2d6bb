// The entries of a link: a reader that is fed portions of bytes, cut anywhere, and is then told the end.
#![tactic(auto)]

ghost use Rattle.std.specs.Prelude.{◌≡◌, length};
ghost use Rattle.text.specs.Text.{written};
ghost use Rattle.reader.specs.Reader.{started, refusal_of, taken, taken_in, fed, said, end_text, ended};

use reader::Link;

// Room for any line: the longest of a record, with the closing line behind it. 149 bytes.
pub const LINE: usize = text::LONGEST_LINE + text::LONGEST_END;

// What an entry leaves: the refusal's number, 0 where there is none; how many bytes of the portion it took; how many bytes it printed at
// the start of what was lent for them; and the link. C is handed this record, so that it is no `Result`.
#[repr(C)]
#[derive(Clone, Copy)]
pub struct Fed {
    pub refusal: u64,
    pub taken: usize,
    pub printed: usize,
    pub link: Link,
}

fn refused(link: Link) -> Fed
    ensures { result ≡ record { refusal = 12; taken = 0; printed = 0; link = link } }
{
    Fed {
        refusal: 12,
        taken: 0,
        printed: 0,
        link: link,
    }
}

// Public: a reader that has seen nothing. At most `limit` bytes count, and no more than 2^63.
pub fn start(limit: u64) -> Link
    ensures { result ≡ started limit }
{
    reader::start(limit)
}

// Public: takes bytes of a portion up to the first record's end, or all, and says how many; gives the line of a record that ended. Refusal
// 12 after the end.
pub fn feed(
    link: Link,
    head: &mut [u8; record::ROWS_AT],
    rows: &mut [f64; record::FLOATS],
    bytes: &[u8],
    out: &mut [u8; LINE],
) -> Fed
    ensures refusal { result.refusal ≡ refusal_of link head.old }
    ensures taken { result.taken ≡ taken link head.old rows.old bytes.now }
    ensures link { result.link ≡ (fed link head.old rows.old result.taken bytes.now).link }
    ensures printed { result.printed ≡ length (said link head.old rows.old result.taken bytes.now) }
    ensures head { head.new ≡ (fed link head.old rows.old result.taken bytes.now).head }
    ensures rows { rows.new ≡ (fed link head.old rows.old result.taken bytes.now).rows }
    ensures out { out.new ≡ written out.old 0 (said link head.old rows.old result.taken bytes.now) }
{
    if !reader::is_listening(link, head) {
        return refused(link);
    }
    let took = reader::turn(link, head, rows, bytes, out, 0);
    let next = took.link;
    Fed {
        refusal: 0,
        taken: took.taken,
        printed: took.at,
        link: next,
    }
}

// Public: the end is told. Gives the line of a record that is cut, and the closing line. Refusal 12 after the end.
pub fn end(link: Link, head: &[u8; record::ROWS_AT], out: &mut [u8; LINE]) -> Fed
    ensures refusal { result.refusal ≡ refusal_of link head.now }
    ensures taken { result.taken ≡ 0 }
    ensures link { result.link ≡ ended link head.now }
    ensures printed { result.printed ≡ length (end_text link head.now) }
    ensures out { out.new ≡ written out.old 0 (end_text link head.now) }
{
    if !reader::is_listening(link, head) {
        return refused(link);
    }
    let printed = reader::finish(link, out, 0);
    let closed = Link {
        live: 0,
        lines: link.lines,
        left: link.left,
        passed: link.passed,
        word: link.word,
    };
    Fed {
        refusal: 0,
        taken: 0,
        printed: printed,
        link: closed,
    }
}

// The lines of as many records of a portion as fit into `out`: it goes on while there is room for any line. Refusal 12 after the end.
pub fn fill(
    link: Link,
    head: &mut [u8; record::ROWS_AT],
    rows: &mut [f64; record::FLOATS],
    bytes: &[u8],
    out: &mut [u8],
) -> Fed
    ensures refusal { result.refusal ≡ refusal_of link head.old }
    ensures taken { result.taken ≡ taken_in (length out.old) link head.old rows.old bytes.now }
    ensures link { result.link ≡ (fed link head.old rows.old result.taken bytes.now).link }
    ensures printed { result.printed ≡ length (said link head.old rows.old result.taken bytes.now) }
    ensures head { head.new ≡ (fed link head.old rows.old result.taken bytes.now).head }
    ensures rows { rows.new ≡ (fed link head.old rows.old result.taken bytes.now).rows }
    ensures out { out.new ≡ written out.old 0 (said link head.old rows.old result.taken bytes.now) }
{
    if !reader::is_listening(link, head) {
        return refused(link);
    }
    let mut now = link;
    let mut from = 0;
    let mut at = 0;
    // No `for`: a turn steps by as many bytes as it took.
    while from < bytes.len() {
        if out.len() - at < text::LONGEST_LINE {
            break;
        }
        let took = reader::turn(now, head, rows, &bytes[from..], out, at);
        now = took.link;
        from += took.taken;
        at = took.at;
    }
    Fed {
        refusal: 0,
        taken: from,
        printed: at,
        link: now,
    }
}
