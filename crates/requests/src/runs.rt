// The entries that write words, over a run that is made here and printed after the call.
ghost use Rattle.std.specs.Prelude.{◌≤◌, length, IfSome};

use crate::answers::{answer, one};
use crate::{Request, low};
use disp_targets::TargetWritten;
use lines::Answer;
use words::{Address, ByteDistance, Opc, Place, Refusal, WordPos, Words};

// Word i is A5000000 and i, byte i is 80 and i (hex).
const WORDS: [u32; 8] = [
    0xA5000000, 0xA5000001, 0xA5000002, 0xA5000003, 0xA5000004, 0xA5000005, 0xA5000006, 0xA5000007,
];

const BYTES: [u8; 32] = [
    0x80, 0x81, 0x82, 0x83, 0x84, 0x85, 0x86, 0x87, 0x88, 0x89, 0x8A, 0x8B, 0x8C, 0x8D, 0x8E, 0x8F,
    0x90, 0x91, 0x92, 0x93, 0x94, 0x95, 0x96, 0x97, 0x98, 0x99, 0x9A, 0x9B, 0x9C, 0x9D, 0x9E, 0x9F,
];

// A word of a run, and 0 past its end.
fn word_at(run: &[u32], i: usize) -> u32 {
    run.get(i).copied().unwrap_or(0)
}

// A run of up to four words as a line.
fn words_in(run: &[u32]) -> Answer {
    Answer::Words(Words {
        count: run.len(),
        a: word_at(run, 0),
        b: word_at(run, 1),
        c: word_at(run, 2),
        d: word_at(run, 3),
    })
}

// The new position.
fn position(p: Place) -> Answer {
    one(low(p.position.0 as u64))
}

// The same of a target, and behind the position of an ADRP the target's low bits.
fn reached(w: TargetWritten) -> Answer {
    let past = low(w.past.position.0 as u64);
    match w.low {
        Some(l) => Answer::Numbers(words::two(past, l.0)),
        None => one(past),
    }
}

// A line of its own for a refusal.
fn told(a: Result<Answer, Refusal>) -> Answer {
    a.unwrap_or_else(|r| Answer::No(r))
}

// What was answered, then the run, four words to a line.
fn run_lines(a: Result<Answer, Refusal>, run: &[u32], out: &mut [u8]) -> usize {
    let mut p = lines::line(told(a), out, 0);
    for four in run.chunks(4) {
        p = lines::line(words_in(four), out, p);
    }
    p
}

// The words of a request to a writer.
fn words_of(r: Request) -> Words {
    Words {
        count: r.c as usize,
        a: low(r.d),
        b: low(r.e),
        c: low(r.f),
        d: low(r.g),
    }
}

// How many words the run of a request has, if its entry writes any.
fn room(r: Request) -> Option<usize>
    ensures { IfSome result (λ n. n ≤ 8) }
{
    match r.entry {
        18 => Some((r.a % 9) as usize),
        49 => Some((r.f % 9) as usize),
        80 => Some((r.c % 9) as usize),
        96 | 112 | 113 => Some((r.d % 9) as usize),
        _ => None,
    }
}

// A place by its numbers.
fn place(base: u64, position: u64) -> Place {
    Place {
        base: Address(base),
        position: WordPos(position as usize),
    }
}

fn put(r: Request, run: &mut [u32]) -> Result<Place, Refusal> {
    writers::put(run, place(r.h, r.b), Ok(words_of(r)))
}

fn logical_word(r: Request, run: &mut [u32]) -> Result<Place, Refusal> {
    let at = place(r.h, r.g);
    logical_words::emit_logical_imm(run, at, low(r.a), r.b, low(r.c), low(r.d), low(r.e))
}

fn move_to(r: Request, run: &mut [u32]) -> Result<Place, Refusal> {
    moves::encode_mov_sequence64(run, place(r.e, r.d), r.a, low(r.b))
}

fn patchable(r: Request, run: &mut [u32]) -> Result<Place, Refusal> {
    patchable_moves::encode_patchable_mov_imm(run, place(r.f, r.e), r.a, low(r.b), low(r.c))
}

fn by_distance(r: Request, run: &mut [u32]) -> Result<Place, Refusal> {
    let at = place(r.f, r.e);
    let distance = ByteDistance(words::signed_of(r.c));
    displacements::emit_disp_imm(run, at, low(r.a), Opc(low(r.b)), distance)
}

fn by_target(r: Request, run: &mut [u32]) -> Result<TargetWritten, Refusal> {
    let at = place(r.f, r.e);
    disp_targets::emit_disp_target(run, at, low(r.a), Opc(low(r.b)), Address(r.c))
}

fn write(r: Request, run: &mut [u32]) -> Result<Answer, Refusal> {
    match r.entry {
        18 => put(r, run).map(position),
        49 => logical_word(r, run).map(position),
        80 => move_to(r, run).map(position),
        96 => patchable(r, run).map(position),
        112 => by_distance(r, run).map(position),
        113 => by_target(r, run).map(reached),
        _ => Err(Refusal::Unknown),
    }
}

fn in_words(r: Request, run: &mut [u32], out: &mut [u8]) -> usize {
    let a = write(r, run);
    run_lines(a, run, out)
}

fn on_words(r: Request, n: usize, out: &mut [u8]) -> usize
    requires { n ≤ 8 }
{
    let mut run = WORDS;
    in_words(r, &mut run[..n], out)
}

// A run of bytes as words, low byte first, the last one short where a tail is left.
fn packed_lines(a: Result<Answer, Refusal>, run: &[u8], out: &mut [u8]) -> usize
    requires { length run.now ≤ 32 }
{
    let mut bytes = [0u8; 32];
    bytes[..run.len()].copy_from_slice(run);
    let (fours, _) = bytes.as_chunks::<4>();
    let mut words = [0u32; 8];
    for (word, four) in words.iter_mut().zip(fours) {
        *word = u32::from_le_bytes(*four);
    }
    run_lines(a, &words[..run.len().div_ceil(4)], out)
}

fn in_bytes(r: Request, run: &mut [u8], out: &mut [u8]) -> usize
    requires { length run.old ≤ 32 }
{
    let w = writers::put_bytes(run, place(r.h, r.b), Ok(words_of(r)));
    packed_lines(w.map(position), run, out)
}

fn on_bytes(r: Request, n: usize, out: &mut [u8]) -> usize
    requires { n ≤ 32 }
{
    let mut run = BYTES;
    in_bytes(r, &mut run[..n], out)
}

// The lines of a request from the start of the run on, and how many bytes they are.
pub(crate) fn lines_of(r: Request, out: &mut [u8]) -> usize {
    if r.entry == 19 {
        return on_bytes(r, (r.a % 33) as usize, out);
    }
    match room(r) {
        Some(n) => on_words(r, n, out),
        None => lines::line(told(answer(r)), out, 0),
    }
}
