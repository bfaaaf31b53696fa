// Module 5: move sequences. Arm's meaning of the words is in the crate arm, the words that are asked for in specs/Moves.antt.
#![tactic(auto)]

ghost use Rattle.std.specs.Prelude.{◌≡◌, ◌/◌, ◌%◌, ◌^◌, ◌<◌};
ghost use Rattle.words.specs.Answer.{said};
ghost use Rattle.words.specs.Listed.{words_of, packed};
ghost use Rattle.writers.specs.Put.{put_of};
ghost use Rattle.moves.specs.Moves.{word, others, rest, long, short, mov_said};
ghost use Rattle.moves.specs.Steps.{Filled, Based, first_word, lead};

pub mod register;

use register::Register;
use words::{Opc, Place, Refusal, Words};

pub const MOVZ: Opc = Opc(0xD2800000);

const MOVN: Opc = Opc(0x92800000);

pub const MOVK: Opc = Opc(0xF2800000);

const MOVN32: Opc = Opc(0x12800000);

// A base with halfword number, halfword and register.
fn word(base: Opc, k: u32, h: u32, rd: Register) -> Opc
    requires { (base.0 < 0xF3000000) × (k < 4) × (h < 2 ^ 16) }
    ensures { result.0 ≡ word base.0 k h rd.number }
{
    Opc(base.0 + k * 2097152 + h * 32 + rd.number)
}

// MOVK for each halfword that is not f, lowest first, with no branch on the halfwords: each word is stored, and the next one over it where
// its halfword is f.
fn rest(f: u32, imm: u64, rd: Register) -> Words
    ensures { result ≡ words_of (rest (others f imm) rd.number) }
{
    let mut w = [0; 5];
    let mut count = 0;
    for (k, h) in halfwords::cut(imm).iter().enumerate() {
        w[count] = word(MOVK, k as u32, *h, rd).0;
        count += usize::from(*h != f);
    }
    w[count] = 0;
    Words {
        count,
        a: w[0],
        b: w[1],
        c: w[2],
        d: w[3],
    }
}

// The words with the first one replaced by w; z alone where there are none.
#[tactic(auto, unfolding(crate::specs::Steps::lead))]
fn lead(z: Opc, w: Opc, q: Words) -> Words
    ensures { result ≡ lead z.0 w.0 q }
{
    if q.count == 0 {
        return words::one(z.0);
    }
    Words { a: w.0, ..q }
}

// What the first word fills the register with: zero or FFFF.
#[tactic(auto, unfolding(crate::specs::Steps::filler))]
fn filler(imm: u64) -> u32
    ensures { Filled imm result }
{
    let c = halfwords::count_half_words_64(imm);
    if c.ones <= c.zeros { 0 } else { 0xFFFF }
}

// The base of the first word.
fn base(f: u32) -> Opc
    ensures { Based f result.0 }
{
    if f == 0 { MOVZ } else { MOVN }
}

// A MOVK made a first word: a MOVZ of the same halfword, or a MOVN of it inverted.
fn first(f: u32, w: Opc) -> Opc
    requires { f < 2 ^ 16 }
    ensures { result.0 ≡ first_word f w.0 }
{
    Opc(base(f).0 + w.0 / 2097152 % 4 * 2097152 + ((w.0 / 32 % 65536) ^ f) * 32 + w.0 % 32)
}

// The words of a value above FFFFFFFF. All ones leaves no halfword for the rest and is one MOVN.
fn long(imm: u64, rd: Register) -> Words
    ensures { result ≡ words_of (long imm rd.number) }
{
    let f = filler(imm);
    let q = rest(f, imm, rd);
    lead(Opc(base(f).0 + rd.number), first(f, Opc(q.a)), q)
}

// The words of a value up to FFFFFFFF.
#[tactic(auto, unfolding(crate::specs::Moves::short))]
fn encode_mov_sequence32(imm: u32, rd: Register) -> Words
    ensures { result ≡ words_of (short (imm / 2 ^ 16) (imm % 2 ^ 16) rd.number) }
{
    let hi = imm / 65536;
    let lo = imm % 65536;
    if hi == 0 {
        return words::one(word(MOVZ, 0, lo, rd).0);
    }
    if hi == 0xFFFF {
        return words::one(word(MOVN32, 0, 0xFFFF - lo, rd).0);
    }
    if lo == 0 {
        return words::one(word(MOVZ, 1, hi, rd).0);
    }
    if lo == 0xFFFF {
        return words::one(word(MOVN32, 1, 0xFFFF - hi, rd).0);
    }
    words::two(word(MOVZ, 0, lo, rd).0, word(MOVK, 1, hi, rd).0)
}

// The words of a move of a value to a register, 1 to 4, or refusal 2.
#[tactic(auto, unfolding(crate::specs::Moves::mov_said, crate::specs::Moves::words_of_move))]
pub fn mov_words(imm: u64, rd: u32) -> Result<Words, Refusal>
    ensures { said result ≡ packed (mov_said imm rd) }
{
    let rd = Register::try_from(rd)?;
    if imm <= 0xFFFFFFFF {
        return Ok(encode_mov_sequence32(imm as u32, rd));
    }
    Ok(long(imm, rd))
}

// A move, written: the words from the place on, or refusal 15, 2 or 8 with the run unchanged.
pub fn encode_mov_sequence64(
    words: &mut [u32],
    at: Place,
    imm: u64,
    rd: u32,
) -> Result<Place, Refusal>
    ensures { (said result, words.new) ≡ put_of words.old at (mov_said imm rd) }
{
    writers::put(words, at, mov_words(imm, rd))
}
