// Request a of document 02: a run of words read back. A MOVZ or MOVN and the MOVK words that follow at the same register and size are one constant;
// every other word is an item of its own.
#![tactic(auto)]

ghost use Rattle.std.specs.Prelude.{◌≡◌, ◌+◌, ◌-◌, ◌*◌, ◌^◌, ◌≤◌, ◌<◌, length};
ghost use Rattle.arm.specs.Bits.{Ones};
ghost use Rattle.arm.specs.MoveWide.{decode, insert, datasize};
ghost use Rattle.wide_moves.specs.Wide.{wide_of};
ghost use Rattle.reader.specs.Found.{span, joined_of, found_of, with_movks, resumed_of};
ghost use Rattle.reader.specs.Private.{FirstAt, first_of, kept_of};

use items::Item;
use wide_moves::WideMove;
use words::{Opc, Refusal, WordPos};

// The last of the registers that a constant can be in.
const LAST_REGISTER: u32 = 30;

// A constant: what `count` words leave in register rd, in all 64 bits; sf is 1 at size 64 and 0 at size 32.
// Stays: size and register are numbers, since `resume` takes any constant and refuses those that are none.
#[derive(Clone, Copy)]
pub struct Constant {
    pub sf: u32,
    pub rd: u32,
    pub value: u64,
    pub count: usize,
}

// The words of an item: its position, and the position after it.
#[derive(Clone, Copy)]
pub struct Span {
    pub at: WordPos,
    pub next: WordPos,
}

// What stands at a position. The end of the run is an ordinary answer.
#[derive(Clone, Copy)]
pub enum Found {
    Joined(Constant, Span),
    Single(Item, Span),
    End,
}

// A value with a halfword put at one of its places.
fn insert(x: u64, hw: u32, imm16: u32) -> u64
    requires { (x < 2 ^ 64) × (hw < 4) × (imm16 < 2 ^ 16) }
    ensures { result ≡ insert x (16 * hw) imm16 }
{
    let h = u64::from(imm16);
    match hw {
        0 => x / 65536 * 65536 + h,
        1 => x / 4294967296 * 4294967296 + h * 65536 + x % 65536,
        2 => x / 281474976710656 * 281474976710656 + h * 4294967296 + x % 4294967296,
        _ => h * 281474976710656 + x % 281474976710656,
    }
}

// All ones at a size.
fn top(sf: u32) -> u64
    requires { sf < 2 }
    ensures { result ≡ Ones (datasize sf) }
{
    if sf == 0 {
        u64::from(u32::MAX)
    } else {
        u64::MAX
    }
}

// What a MOVZ or a MOVN leaves.
fn first_value(m: WideMove) -> u64
    requires { (m.sf < 2) × (m.hw < 2 + 2 * m.sf) × (m.imm16 < 2 ^ 16) }
    ensures { result ≡ first_of m }
{
    let x = insert(0, m.hw, m.imm16);
    if m.opc == 2 { x } else { top(m.sf) - x }
}

// A word, if it is a MOVK at a size and a register.
fn kept(w: u32, sf: u32, rd: u32) -> Option<WideMove>
    ensures { result ≡ kept_of sf rd (wide_of (decode w)) }
{
    wide_moves::read_wide(Opc(w)).filter(|m| m.opc == 3 && m.sf == sf && m.rd == rd)
}

// A constant with the MOVK words that a run begins with: they go into its value and its count.
fn go_on(words: &[u32], mut c: Constant) -> Constant
    requires { (c.sf < 2) × (c.value ≤ Ones (datasize c.sf)) × (c.count + length words.now < 2 ^ 64) }
    ensures { result ≡ with_movks words.now c }
{
    for w in words {
        let Some(m) = kept(*w, c.sf, c.rd) else {
            break;
        };
        c.value = insert(c.value, m.hw, m.imm16);
        c.count += 1;
    }
    c
}

// The words from a position up to another.
fn from_to(at: usize, next: usize) -> Span
    ensures { result ≡ span at next }
{
    Span {
        at: WordPos(at),
        next: WordPos(next),
    }
}

// The MOVZ or MOVN at a position, and the MOVK words after it.
fn join(words: &[u32], at: usize, m: WideMove) -> Found
    requires { FirstAt words.now at m }
    ensures { result ≡ joined_of words.now at m.sf m.rd }
{
    let first = Constant {
        sf: m.sf,
        rd: m.rd,
        value: first_value(m),
        count: 1,
    };
    let c = go_on(&words[at + 1..], first);
    Found::Joined(c, from_to(at, at + c.count))
}

// What stands at a position: 8 past the end of the run.
#[tactic(auto, unfolding(crate::specs::Found::found_of))]
pub fn read_at(words: &[u32], at: WordPos) -> Result<Found, Refusal>
    ensures { result ≡ found_of words.now at.0 }
{
    let i = at.0;
    if words.len() < i {
        return Err(Refusal::NoRoom);
    }
    if words.len() == i {
        return Ok(Found::End);
    }
    let item = items::read_word(Opc(words[i]));
    Ok(match item {
        Item::Wide(m) if m.opc != 3 => join(words, i, m),
        _ => Found::Single(item, from_to(i, i + 1)),
    })
}

// A constant whose words end where this piece begins, with the MOVK words at the piece's start: 1, 2, 3 where it is none, 8 where the count of its
// words would not fit.
#[tactic(auto, unfolding(crate::specs::Found::resumed_of))]
pub fn resume(words: &[u32], c: Constant) -> Result<Found, Refusal>
    ensures { result ≡ resumed_of words.now c }
{
    if 1 < c.sf {
        return Err(Refusal::Width);
    }
    if LAST_REGISTER < c.rd {
        return Err(Refusal::Register);
    }
    if top(c.sf) < c.value {
        return Err(Refusal::NoField);
    }
    if usize::MAX - c.count < words.len() {
        return Err(Refusal::NoRoom);
    }
    let d = go_on(words, c);
    Ok(Found::Joined(d, from_to(0, d.count - c.count)))
}
