// The entries for the tool's host on values alone: small immediates, register numbers, the condition field, and the count of halfwords. Each answers
// one number, as the entries of crates/host: a refusal's number in its low byte (0: nothing was refused), and above it the value (0 with a refusal).
#![tactic(auto)]

ghost use Rattle.std.specs.Prelude.{◌≡◌, pos};
ghost use Rattle.words.specs.Said.{Said};
ghost use Rattle.halfwords.specs.Halfwords.{count};
ghost use Rattle.registers.specs.Checks.{gp_ok, vec_ok, cond_field};
ghost use Rattle.immediates.specs.Says.{FloatSays, MaskSays};
ghost use Rattle.host.specs.Number.{told, yes_no};
ghost use Rattle.host_values.specs.Values.{natural, TestSays, Tells};
ghost use Rattle.words.specs.Answer.{said};

use words::Refusal;

// A number above the low byte.
fn value_of(n: u32) -> u64
    ensures { result ≡ told (Said.ok (pos n)) }
{
    u64::from(n) * 256
}

// An 8-bit value, or its refusal.
fn imm8_of(a: Result<u8, Refusal>) -> u64
    ensures { result ≡ told (natural (said a)) }
{
    a.map_or_else(host::refused, |b| value_of(u32::from(b)))
}

// How many of the four halfwords of a value are zero, 0 to 4: never refused.
pub fn vaimalofo_count_zero_half_words(value: u64) -> u64
    ensures { result ≡ told (Said.ok (pos (count 0 value))) }
{
    value_of(halfwords::count_zero_half_words_64(value) as u32)
}

// The 8-bit float of the low bits of a value, at width 16, 32 or 64: 1, 3.
pub fn vaimalofo_float_imm8(value: u64, width: u32) -> u64
    ensures { Tells (FloatSays width value) natural result }
{
    imm8_of(immediates::encode_fp_to_imm8(value, width))
}

// Whether the low bits of a value have an 8-bit float, at width 16, 32 or 64, 1 or 0: 1.
// Stays: a width by its number, since three different functions answer.
pub fn vaimalofo_is_float_imm8(value: u64, width: u32) -> u64
    ensures { Tells (TestSays width value) yes_no result }
{
    match width {
        16 => host::yes(immediates::is_fp16_imm8((value % 4294967296) as u32)),
        32 => host::yes(immediates::is_fp32_imm8((value % 4294967296) as u32)),
        64 => host::yes(immediates::is_fp64_imm8(value)),
        _ => host::refused(Refusal::Width),
    }
}

// The 8 bits of a value whose bytes are each 00 or FF, byte i as bit i: 3.
pub fn vaimalofo_byte_mask_imm8(value: u64) -> u64
    ensures { Tells (MaskSays value) natural result }
{
    imm8_of(immediates::encode_imm64_byte_mask_to_imm8(value))
}

// Whether a number is a general register's, below 31 or the high one, 1 or 0: never refused.
pub fn vaimalofo_check_gp_id(id: u32, high: u32) -> u64
    ensures { result ≡ told (yes_no (Said.ok (gp_ok id high))) }
{
    host::yes(registers::check_gp_id(id, high))
}

// Whether a number is a vector register's, below 32, 1 or 0: never refused.
pub fn vaimalofo_check_vec_id(id: u32) -> u64
    ensures { result ≡ told (yes_no (Said.ok (vec_ok id))) }
{
    host::yes(registers::check_vec_id(id))
}

// The condition field of a condition code, 2 less modulo 16, for every number: never refused.
pub fn vaimalofo_cond_field(cond: u32) -> u64
    ensures { result ≡ told (Said.ok (pos (cond_field cond))) }
{
    value_of(registers::cond_code_to_opcode_field(cond))
}
