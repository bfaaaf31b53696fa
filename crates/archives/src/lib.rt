// The archive program: raw words from an input, low byte first, and a line for each item on standard output. Input comes in blocks of whole
// words through a fixed buffer, and lines go out through another. What ends it but the end of the input is told on standard error. Input, output and
// standard error are lent by the caller.
#![tactic(auto)]

ghost use Rattle.std.specs.Prelude.{◌≡◌, ◌+◌, ◌/◌, ◌<◌, ◌≤◌, false, length, take, IfSome};
ghost use Rattle.archives.specs.Printed.{word_of, words_of, Upto, Passed};

use archive_pieces::{Begun, Step, Told};
use lines::Answer;
use std::io::Read;

// A position of the archive, and what is carried there.
#[derive(Clone, Copy)]
struct Place {
    at: u64,
    carried: Option<Begun>,
}

// How far the items of a piece were printed: words of the piece and bytes of the run, the place behind them, and whether that is the piece's end.
// Stays: each number counts whether the piece ended or not.
#[derive(Clone, Copy)]
struct Printed {
    taken: usize,
    written: usize,
    next: Place,
    ended: bool,
}

// Tells on standard error that the input ends in a tail, which stands at an offset.
fn tell_cut<E: Eprint>(rt: &E, offset: u64) {
    let _ = eprintln!(rt; "cut at {offset}: the last word has fewer than 4 bytes");
}

// Writes lines on standard output, tells where that fails, and says whether they were written.
// Stays: as in `batches`, since a public function's answer is to be determined by its contract, and what a write gives no contract says.
fn written<H: Print + Eprint>(rt: &H, text: &[u8]) -> bool {
    match rt.write_all(text) {
        Ok(()) => true,
        Err(why) => {
            let _ = eprintln!(rt; "standard output: {why}");
            false
        }
    }
}

// The whole words of bytes, low byte first, from the start of a run.
fn gather(bytes: &[u8], words: &mut [u32]) -> usize
    requires { length bytes.now / 4 ≤ length words.old }
    ensures value { result ≡ length bytes.now / 4 }
    ensures words_after { take result words.new ≡ words_of bytes.now }
{
    let (fours, _) = bytes.as_chunks::<4>();
    for (i, four) in fours.iter().enumerate() {
        words[i] = u32::from_le_bytes(*four);
    }
    fours.len()
}

// The lines of a piece's items from the start of a run, until the piece is at its end or there is no room for any line.
fn print(words: &[u32], from: Place, out: &mut [u8]) -> Printed
    ensures upto { Upto words.now from.at from.carried out.old result.ended result.taken result.next.at result.next.carried result.written out.new }
    ensures out_len_bound { result.ended ≡ false → length out.old < result.written + 320 }
{
    let mut i = 0;
    let mut next = from;
    let mut p = 0;
    // Stays: how many words an item takes is what `read_on` answers, so there is no range to go over.
    while 320 <= out.len() - p {
        match archive_pieces::read_on(&words[i..], next.at, next.carried) {
            Step::Tell(t, n) => {
                p = archive_lines::line(t, out, p);
                i += n;
                next = Place {
                    at: next.at.wrapping_add(n as u64),
                    carried: None,
                };
            }
            Step::Carry(carried) => {
                let left = words.len() - i;
                return Printed {
                    taken: words.len(),
                    written: p,
                    next: Place {
                        at: next.at.wrapping_add(left as u64),
                        carried,
                    },
                    ended: true,
                };
            }
        }
    }
    Printed {
        taken: i,
        written: p,
        next,
        ended: false,
    }
}

// The lines of a piece's items, written: one write for each run of lines. The answer is the place behind them, and none where nothing more can be
// written.
fn pass<H: Print + Eprint>(rt: &H, words: &[u32], from: Place, out: &mut [u8]) -> Option<Place>
    requires { 320 ≤ length out.old }
    ensures { IfSome result (λ next. Passed words.now from.at from.carried next.at next.carried) }
{
    let mut i = 0;
    let mut next = from;
    // Stays: a run of lines takes as many items as it has room for, so there is no range to go over.
    loop {
        let p = print(&words[i..], next, out);
        i += p.taken;
        next = p.next;
        if !written(rt, &out[..p.written]) {
            return None;
        }
        if p.ended {
            return Some(next);
        }
    }
}

// The line of a constant that is carried past the end of the input.
fn rest(carried: Option<Begun>, out: &mut [u8]) -> usize {
    carried.map_or(
        0,
        |b| archive_lines::line(Told::Joined(b.constant, b.at), out, 0),
    )
}

// What is left where the input ends: the line of a carried constant, and that of a tail of so many bytes.
fn last<H: Print + Eprint>(rt: &H, count: usize, next: Place, out: &mut [u8]) {
    let n = rest(next.carried, out);
    if count == 0 {
        if n <= out.len() {
            written(rt, &out[..n]);
        }
        return;
    }
    let offset = next.at % 0x4000_0000_0000_0000 * 4;
    let m = lines::line(Answer::Cut(offset), out, n);
    if m <= out.len() {
        written(rt, &out[..m]);
    }
    tell_cut(rt, offset);
}

// A block of the input, and what stands behind it. Only the last one is not full, and only that one has a tail, which is cut where the input ended.
fn block<R: Read, H: Print + Eprint>(
    rt: &H,
    input: &mut R,
    buf: &mut [u8],
    words: &mut [u32],
    out: &mut [u8],
    from: Place,
) -> Option<Place>
    requires { (length buf.old / 4 ≤ length words.old) × (320 ≤ length out.old) }
    ensures { IfSome result (λ next. Passed (words_of buf.new) from.at from.carried next.at next.carried) }
{
    let f = streams::fill(rt, input, buf);
    let n = f.count;
    let k = gather(&buf[..n], words);
    let next = pass(rt, &words[..k], from, out)?;
    if n == buf.len() {
        return Some(next);
    }
    if !f.failed {
        last(rt, n % 4, next, out);
    }
    None
}

fn block_in<R: Read, H: Print + Eprint>(
    rt: &H,
    input: &mut R,
    buf: &mut [u8; 65536],
    words: &mut [u32; 16384],
    out: &mut [u8; 65536],
    from: Place,
) -> Option<Place> {
    block(rt, input, buf, words, out, from)
}

// Tells every item of the input's words on standard output. It is lent the host and the input and answers nothing; what it prints is compared.
pub fn run_all<R: Read, H: Print + Eprint>(rt: &H, input: &mut R)
    ensures { Unit }
{
    let mut buf = [0u8; 65536];
    let mut words = [0u32; 16384];
    let mut out = [0u8; 65536];
    let mut from = Place {
        at: 0,
        carried: None,
    };
    for _ in 0..u64::MAX {
        let Some(next) = block_in(rt, input, &mut buf, &mut words, &mut out, from) else {
            break;
        };
        from = next;
    }
}
