// Module 8: 8-bit floats at 16, 32 and 64 bits, and byte masks. An encoder reads the 8 bits that a value has to have, expands them, and takes
// them where that gives the value.
#![tactic(auto)]

ghost use Rattle.std.specs.Prelude.{◌≡◌, ◌+◌, ◌%◌, ◌≤◌, ◌^◌, ◌<◌};
ghost use Rattle.arm.specs.Immediates.{VFPExpand, VFPExpandImm, ByteMask};
ghost use Rattle.arm.specs.Imm8.{read_mask, mask_sum};
ghost use Rattle.immediates.specs.Says.{Spells, FloatSays, MaskSays, Tests};
ghost use Rattle.immediates.specs.Steps.{settled};
ghost use Rattle.words.specs.Answer.{said};

use words::Refusal;

// The 8 bits that were read, where their expansion is the value.
fn settle(b: u64, expanded: u64, val: u64) -> Result<u8, Refusal>
    requires { b < 256 }
    ensures { said result ≡ settled b expanded val }
{
    if expanded == val {
        return Ok(b as u8);
    }
    Err(Refusal::NoField)
}

// The 8-bit float that stands for a float of E exponent and F fraction bits. The sign, and the seven bits above the fraction's zeros, are read;
// what they expand to is summed by weights: the sign, the exponent's top, less the lowest weight of its run where bit 6 is set, and the low six bits.
fn encode_fp<const E: u32, const F: u32>(val: u64) -> Result<u8, Refusal>
    requires { (4 ≤ E) × (4 ≤ F) × (E + F < 64) }
    ensures { Spells (VFPExpand E F) val (said result) }
{
    let sign = E + F;
    let zeros = F - 4;
    let b = (val >> sign) % 2 * 128 + (val >> zeros) % 128;
    let e = ((b / 128) << sign)
        + ((1 << (sign - 1)) - ((b / 64 % 2) << (zeros + 6)))
        + ((b % 64) << zeros);
    settle(b, e, val)
}

// The 8-bit float of the low bits of a value.
pub fn encode_fp_to_imm8(val: u64, width: u32) -> Result<u8, Refusal>
    ensures { FloatSays width val (said result) }
{
    match width {
        16 => encode_fp::<5, 10>(val % 0x1_0000),
        32 => encode_fp::<8, 23>(val % 0x1_0000_0000),
        64 => encode_fp::<11, 52>(val),
        _ => Err(Refusal::Width),
    }
}

pub fn is_fp16_imm8(val: u32) -> bool
    ensures { Tests (VFPExpandImm 16) (val % 2 ^ 16) result }
{
    encode_fp::<5, 10>(u64::from(val % 0x1_0000)).is_ok()
}

pub fn is_fp32_imm8(val: u32) -> bool
    ensures { Tests (VFPExpandImm 32) val result }
{
    encode_fp::<8, 23>(u64::from(val)).is_ok()
}

pub fn is_fp64_imm8(val: u64) -> bool
    ensures { Tests (VFPExpandImm 64) val result }
{
    encode_fp::<11, 52>(val).is_ok()
}

// The lowest bit of each byte: byte i gives bit i.
fn read_byte_mask(val: u64) -> u64
    ensures { result ≡ read_mask 8 val }
{
    let mut b = 0;
    for i in 0..8u32 {
        b += ((val >> (8 * i)) % 2) << i;
    }
    b
}

// Eight bytes, each eight times its bit.
fn expand_byte_mask(b: u64) -> u64
    ensures { result ≡ mask_sum 8 b }
{
    let mut e = 0;
    for i in 0..8u32 {
        e += ((b >> i) % 2 * 255) << (8 * i);
    }
    e
}

// The 8 bits of a value whose bytes are each 00 or FF: byte i is bit i.
pub fn encode_imm64_byte_mask_to_imm8(imm: u64) -> Result<u8, Refusal>
    ensures { MaskSays imm (said result) }
{
    let b = read_byte_mask(imm);
    settle(b, expand_byte_mask(b), imm)
}

pub fn is_byte_mask_imm(imm: u64) -> bool
    ensures { Tests ByteMask imm result }
{
    encode_imm64_byte_mask_to_imm8(imm).is_ok()
}
