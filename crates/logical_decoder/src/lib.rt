// Module 4: the value that the fields N, S and R spell, and the same fields in normal form. Arm's DecodeBitMasks says what fields mean.
#![tactic(auto)]

ghost use Rattle.std.specs.Prelude.{◌≡◌, ℕ, ◌+◌, ◌/◌, ◌%◌, ◌^◌, ◌≤◌, ◌<◌};
ghost use Rattle.arm.specs.Bits.{Ones, ROR, Replicate};
ghost use Rattle.arm.specs.Elements.{Element, runs};
ghost use Rattle.logical.specs.Width.{bits_of};
ghost use Rattle.logical_decoder.specs.Answer.{Decoded, Normal};
ghost use Rattle.words.specs.Answer.{said};

use logical::{LogicalImm, Width};
use words::Refusal;

// 1 in the lowest bit of each element of e bits, over 64 bits.
fn copies(e: u32) -> u64
    requires { Element 64 e }
    ensures { result ≡ Replicate e 1 (64 / e) }
{
    match e {
        2 => 0x5555_5555_5555_5555,
        4 => 0x1111_1111_1111_1111,
        8 => 0x0101_0101_0101_0101,
        16 => 0x0001_0001_0001_0001,
        32 => 0x0000_0001_0000_0001,
        _ => 1,
    }
}

// A run of l ones, p places up, in each element of e bits.
fn repeated(l: u32, p: u32, e: u32, w: Width) -> u64
    requires { Element (bits_of w) e × (0 < l) × (0 < p) × (p + l ≤ e) }
    ensures { (result ≡ runs e (bits_of w / e) p l) × (result ≤ Ones (bits_of w)) }
{
    (words::lsb_mask(l) << p) * (copies(e) >> (64 - w.bits()))
}

// A run of l ones in each element of e bits, turned to the right by q.
fn mask_of(e: u32, l: u32, q: u32, w: Width) -> u64
    requires { Element (bits_of w) e × (0 < l) × (l < e) × (q < e) }
    ensures { result ≡ Replicate e (ROR e (Ones l) q) (bits_of w / e) }
{
    if l <= q {
        repeated(l, e - q, e, w)
    } else {
        words::lsb_mask(w.bits()) - repeated(e - l, l - q, e, w)
    }
}

// The element's length is a power of two, so `levels`, one less, masks what counts of S and R.
#[inline(always)]
fn decode_at(n: u32, s: u32, r: u32, w: Width) -> Result<u64, Refusal>
    ensures { Decoded (bits_of w) n s r (said result) }
{
    if 1 < n || 63 < s || 63 < r {
        return Err(Refusal::NoField);
    }
    let x = n * 64 + (63 - s);
    if x < 2 {
        return Err(Refusal::NoField);
    }
    let e: u32 = 1 << x.ilog2();
    let levels = e - 1;
    let l = (s & levels) + 1;
    if w.bits() < e || l == e {
        return Err(Refusal::NoField);
    }
    Ok(mask_of(e, l, r & levels, w))
}

// The value that fields spell. Inlined, with `decode_at`: else its answer goes through memory, and a mask takes a quarter longer.
#[inline(always)]
pub fn decode_logical_imm(n: u32, s: u32, r: u32, width: u32) -> Result<u64, Refusal>
    ensures { Decoded width n s r (said result) }
{
    decode_at(n, s, r, Width::try_from(width)?)
}

// The same value in normal form, with the element length: decoded, then encoded.
pub fn normalise(n: u32, s: u32, r: u32, width: u32) -> Result<LogicalImm, Refusal>
    ensures { Normal width n s r (said result) }
{
    let m = decode_logical_imm(n, s, r, width)?;
    logical::encode_logical_imm(m, width)
}
