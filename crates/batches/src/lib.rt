// The batch program: records from standard input, and a line for each on standard output. Input comes in blocks of whole records through a
// fixed buffer, and lines go out through another. What ends it but the end of the input is told on standard error.
#![tactic(auto)]

ghost use Rattle.std.specs.Prelude.{◌≡◌, ◌+◌, ◌/◌, ◌<◌, ◌≤◌, false, length, IfSome};
ghost use Rattle.lines.specs.Item.{items_of};
ghost use Rattle.records.specs.Inputs.{offset_after};
ghost use Rattle.batches.specs.Printed.{ends_of, Upto};

use lines::Answer;
use std::io::Read;

// How far the records of a block were printed: bytes of the block and of the run, the offset behind them, and whether that was the end.
// Stays: each number counts whether a record was the end or not.
#[derive(Clone, Copy)]
struct Printed {
    taken: usize,
    written: usize,
    next: u64,
    ended: bool,
}

// Tells on standard error that a line was the end, and why.
fn tell<E: Eprint>(rt: &E, line: &str, offset: u64, why: &str) {
    let _ = eprint!(rt; "{line}{offset}{why}");
}

// A bad mark at a record whose end stands at an offset.
fn tell_bad_mark<E: Eprint>(rt: &E, behind: u64) {
    tell(
        rt,
        "bad mark at ",
        behind.wrapping_sub(12),
        ": a record opens with the bytes 46 53 (hex)\n",
    );
}

// A tail that stands at an offset.
fn tell_cut<E: Eprint>(rt: &E, offset: u64) {
    tell(
        rt,
        "cut at ",
        offset,
        ": the last record has fewer than 12 bytes\n",
    );
}

// Writes lines on standard output, tells where that fails, and says whether they were written.
// Stays: as in `archives`, since a public function's answer is to be determined by its contract, and what a write gives no contract says.
fn written<H: Print + Eprint>(rt: &H, text: &[u8]) -> bool {
    match rt.write_all(text) {
        Ok(()) => true,
        Err(why) => {
            let _ = eprintln!(rt; "standard output: {why}");
            false
        }
    }
}

// Whether an answer's line is the end.
fn ends(a: Answer) -> bool
    ensures { result ≡ ends_of (items_of a) }
{
    matches!(a, Answer::BadMark(_) | Answer::Cut(_))
}

// The lines of a block from the start of a run, until its whole records are answered, a bad mark ends them, or there is no room for any line.
fn print(bytes: &[u8], offset: u64, out: &mut [u8]) -> Printed
    ensures upto { Upto offset bytes.now out.old result.taken result.written result.next result.ended out.new }
    ensures out_len_bound { result.ended ≡ false → result.taken + 12 ≤ length bytes.now → length out.old < result.written + 96 }
{
    let mut p = Printed {
        taken: 0,
        written: 0,
        next: offset,
        ended: false,
    };
    let (records, _) = bytes.as_chunks::<12>();
    for record in records {
        if out.len() - p.written < 96 {
            return p;
        }
        let a = records::answer(*record, p.next);
        p = Printed {
            taken: p.taken + 12,
            written: lines::line(a, out, p.written),
            next: p.next.wrapping_add(12),
            ended: ends(a),
        };
        if p.ended {
            return p;
        }
    }
    p
}

// The lines of a block, written: one write for each run of lines. What is answered is the offset behind them, and nothing where it is over, which
// it is also where nothing more can be written.
fn pass<H: Print + Eprint>(rt: &H, bytes: &[u8], offset: u64, out: &mut [u8]) -> Option<u64>
    requires { 96 ≤ length out.old }
    ensures { IfSome result (λ next. next ≡ offset_after offset (length bytes.now / 12)) }
{
    let mut i = 0;
    let mut next = offset;
    // Stays: a run of lines takes as many records as it has room for, so there is no range to go over.
    while 12 <= bytes.len() - i {
        let p = print(&bytes[i..], next, out);
        i += p.taken;
        next = p.next;
        if !written(rt, &out[..p.written]) {
            return None;
        }
        if p.ended {
            tell_bad_mark(rt, next);
            return None;
        }
    }
    Some(next)
}

// The line of what is left behind the last record.
fn last<H: Print + Eprint>(rt: &H, count: usize, offset: u64, out: &mut [u8]) {
    let n = lines::line(records::tail(count, offset), out, 0);
    if n <= out.len() {
        written(rt, &out[..n]);
    }
    if 0 < n {
        tell_cut(rt, offset);
    }
}

// A block of the input, and the offset behind it. Only the last one is not full, and only that one has a tail, which is cut where the input ended.
fn block<R: Read, H: Print + Eprint>(
    rt: &H,
    input: &mut R,
    buf: &mut [u8],
    offset: u64,
    out: &mut [u8],
) -> Option<u64>
    requires { 96 ≤ length out.old }
    ensures { IfSome result (λ next. next ≡ offset_after offset (length buf.new / 12)) }
{
    let f = streams::fill(rt, input, buf);
    let n = f.count;
    let next = pass(rt, &buf[..n], offset, out)?;
    if n == buf.len() {
        return Some(next);
    }
    if !f.failed {
        last(rt, n % 12, next, out);
    }
    None
}

fn block_in<R: Read, H: Print + Eprint>(
    rt: &H,
    input: &mut R,
    buf: &mut [u8; 16380],
    offset: u64,
    out: &mut [u8; 65536],
) -> Option<u64> {
    block(rt, input, buf, offset, out)
}

// Answers every record of the input on standard output. It is lent the host and the input and answers nothing; what it prints is compared.
pub fn run_all<R: Read, H: Print + Eprint>(rt: &H, input: &mut R)
    ensures { Unit }
{
    let mut buf = [0u8; 16380];
    let mut out = [0u8; 65536];
    let mut offset = 0;
    for _ in 0..u64::MAX {
        let Some(next) = block_in(rt, input, &mut buf, offset, &mut out) else {
            break;
        };
        offset = next;
    }
}
