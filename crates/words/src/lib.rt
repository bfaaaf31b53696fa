// Module 1: addresses, positions, distances and opcode words, each a type of its own; places in code; the refusals; up to four words by value;
// masks of low bits, the bit test, and signed numbers as 64 bits.
#![tactic(auto)]

ghost use Rattle.std.specs.Prelude.{◌≡◌, ◌%◌, ◌^◌, min, [], ◌∷◌};
ghost use Rattle.std.specs.Int.{w64};
ghost use Rattle.std.proofs.Common.{to_z, of_z};
ghost use Rattle.arm.specs.Bits.{Ones};
ghost use Rattle.words.specs.Answer.{number_of, refusal_of, Numbers};
ghost use Rattle.words.specs.Bit.{bit_of};
ghost use Rattle.words.specs.Listed.{words_of};
ghost use Rattle.words.specs.Place.{address_of};

use std::error::Error;
use std::fmt;

// A place in a run of words, counted in words.
#[derive(Clone, Copy)]
pub struct WordPos(pub usize);

// An address in bytes.
#[derive(Clone, Copy)]
pub struct Address(pub u64);

// A signed distance in bytes.
#[derive(Clone, Copy)]
pub struct ByteDistance(pub i64);

// A place in code: the address of the run's first word, and the position in the run.
#[derive(Clone, Copy)]
pub struct Place {
    pub base: Address,
    pub position: WordPos,
}

// An opcode word.
#[derive(Clone, Copy)]
pub struct Opc(pub u32);

// Why a request was turned down, by its number in document 01 or 02.
#[derive(Clone, Copy, Debug, PartialEq, Eq)]
pub enum Refusal {
    Width = 1,
    Register = 2,
    NoField = 3,
    Step = 4,
    Range = 5,
    Taken = 6,
    Unknown = 7,
    NoRoom = 8,
    Index = 9,
    ZeroBase = 10,
    WrongForm = 11,
    Label = 12,
    Twice = 13,
    Full = 14,
    Unaligned = 15,
    Again = 16,
}

// A number that no refusal has.
#[derive(Clone, Copy, Debug, PartialEq, Eq)]
pub struct NoRefusal(pub u32);

// Up to four words: a, b, c, d, as many as the count says.
#[derive(Clone, Copy)]
pub struct Words {
    pub count: usize,
    pub a: u32,
    pub b: u32,
    pub c: u32,
    pub d: u32,
}

pub fn number(r: Refusal) -> u32
    ensures { result ≡ number_of r }
{
    r as u32
}

impl TryFrom<u32> for Refusal {
    type Error = NoRefusal;

    ghost try_from_gives = { Numbers };

    fn try_from(n: u32) -> Result<Self, NoRefusal> {
        match n {
            1 => Ok(Refusal::Width),
            2 => Ok(Refusal::Register),
            3 => Ok(Refusal::NoField),
            4 => Ok(Refusal::Step),
            5 => Ok(Refusal::Range),
            6 => Ok(Refusal::Taken),
            7 => Ok(Refusal::Unknown),
            8 => Ok(Refusal::NoRoom),
            9 => Ok(Refusal::Index),
            10 => Ok(Refusal::ZeroBase),
            11 => Ok(Refusal::WrongForm),
            12 => Ok(Refusal::Label),
            13 => Ok(Refusal::Twice),
            14 => Ok(Refusal::Full),
            15 => Ok(Refusal::Unaligned),
            16 => Ok(Refusal::Again),
            _ => Err(NoRefusal(n)),
        }
    }
}

impl fmt::Display for Refusal {
    fn fmt<W: fmt::Write>(&self, f: &mut fmt::Formatter<W>) -> fmt::Result {
        write!(f, "refused {}", number(*self))
    }
}

impl Error for Refusal {}

// The refusal that has a number; the first one where none has it.
pub fn numbered(n: u32) -> Refusal
    ensures { result ≡ refusal_of n }
{
    Refusal::try_from(n).unwrap_or(Refusal::Width)
}

// The address of the word at a place. The sum wraps, and of the position only the low 62 bits count: four times the rest is whole turns.
pub fn address_of(at: Place) -> Address
    ensures { result ≡ record { 0 = address_of at } }
{
    let bytes = at.position.0 as u64 % 0x4000_0000_0000_0000 * 4;
    Address(at.base.0.wrapping_add(bytes))
}

// Up to three numbers by value, of which `count` are used.
fn upto(count: usize, a: u32, b: u32, c: u32) -> Words
    ensures { result ≡ record { count = count; a = a; b = b; c = c; d = 0 } }
{
    Words {
        count,
        a,
        b,
        c,
        d: 0,
    }
}

pub fn one(w: u32) -> Words
    ensures { result ≡ words_of (w ∷ []) }
{
    upto(1, w, 0, 0)
}

pub fn two(v: u32, w: u32) -> Words
    ensures { result ≡ words_of (v ∷ w ∷ []) }
{
    upto(2, v, w, 0)
}

pub fn three(u: u32, v: u32, w: u32) -> Words
    ensures { result ≡ words_of (u ∷ v ∷ w ∷ []) }
{
    upto(3, u, v, w)
}

pub fn four(t: u32, u: u32, v: u32, w: u32) -> Words
    ensures { result ≡ words_of (t ∷ u ∷ v ∷ w ∷ []) }
{
    Words {
        count: 4,
        a: t,
        b: u,
        c: v,
        d: w,
    }
}

// Whether bit n of a word is set; a bit past the word is not.
pub fn bit_test(value: u32, n: u32) -> bool
    ensures { result ≡ bit_of value n }
{
    if n < 32 {
        return (value >> n) % 2 == 1;
    }
    false
}

// The smaller of two numbers.
pub fn least(a: usize, b: usize) -> usize
    ensures { result ≡ min a b }
{
    a.min(b)
}

// n ones from bit 0 on, and no more than 64.
pub fn lsb_mask(n: u32) -> u64
    ensures { result ≡ Ones (min n 64) }
{
    if n < 64 {
        return (1 << n) - 1;
    }
    u64::MAX
}

// The low n bits of x; all of them from 64 on.
pub fn low_bits(x: u64, n: u32) -> u64
    ensures { result ≡ x % 2 ^ min n 64 }
{
    x & lsb_mask(n)
}

// The number modulo 2^64, read as signed.
pub fn signed_of(x: u64) -> i64
    ensures { result ≡ to_z w64 x }
{
    x.cast_signed()
}

// The number modulo 2^64 of a signed one.
pub fn bits_of(d: i64) -> u64
    ensures { result ≡ of_z w64 d }
{
    d.cast_unsigned()
}
