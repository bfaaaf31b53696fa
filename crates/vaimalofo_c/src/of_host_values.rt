// The entries of the crate `host_values`.

ghost use Rattle.std.specs.Prelude.{◌≡◌, pos};
ghost use Rattle.words.specs.Said.{Said};
ghost use Rattle.halfwords.specs.Halfwords.{count};
ghost use Rattle.registers.specs.Checks.{gp_ok, vec_ok, cond_field};
ghost use Rattle.immediates.specs.Says.{FloatSays, MaskSays};
ghost use Rattle.host.specs.Number.{told, yes_no};
ghost use Rattle.host_values.specs.Values.{natural, TestSays, Tells};

// How many of the four halfwords of a value are zero, 0 to 4: never refused.
#[unsafe(no_mangle)]
pub extern "C" fn vaimalofo_count_zero_half_words(value: u64) -> u64
    ensures { result ≡ told (Said.ok (pos (count 0 value))) }
{
    host_values::vaimalofo_count_zero_half_words(value)
}

// The 8-bit float of the low bits of a value, at width 16, 32 or 64: 1, 3.
#[unsafe(no_mangle)]
pub extern "C" fn vaimalofo_float_imm8(value: u64, width: u32) -> u64
    ensures { Tells (FloatSays width value) natural result }
{
    host_values::vaimalofo_float_imm8(value, width)
}

// Whether the low bits of a value have an 8-bit float, at width 16, 32 or 64, 1 or 0: 1.
#[unsafe(no_mangle)]
pub extern "C" fn vaimalofo_is_float_imm8(value: u64, width: u32) -> u64
    ensures { Tells (TestSays width value) yes_no result }
{
    host_values::vaimalofo_is_float_imm8(value, width)
}

// The 8 bits of a value whose bytes are each 00 or FF, byte i as bit i: 3.
#[unsafe(no_mangle)]
pub extern "C" fn vaimalofo_byte_mask_imm8(value: u64) -> u64
    ensures { Tells (MaskSays value) natural result }
{
    host_values::vaimalofo_byte_mask_imm8(value)
}

// Whether a number is a general register's, below 31 or the high one, 1 or 0: never refused.
#[unsafe(no_mangle)]
pub extern "C" fn vaimalofo_check_gp_id(id: u32, high: u32) -> u64
    ensures { result ≡ told (yes_no (Said.ok (gp_ok id high))) }
{
    host_values::vaimalofo_check_gp_id(id, high)
}

// Whether a number is a vector register's, below 32, 1 or 0: never refused.
#[unsafe(no_mangle)]
pub extern "C" fn vaimalofo_check_vec_id(id: u32) -> u64
    ensures { result ≡ told (yes_no (Said.ok (vec_ok id))) }
{
    host_values::vaimalofo_check_vec_id(id)
}

// The condition field of a condition code, 2 less modulo 16, for every number: never refused.
#[unsafe(no_mangle)]
pub extern "C" fn vaimalofo_cond_field(cond: u32) -> u64
    ensures { result ≡ told (Said.ok (pos (cond_field cond))) }
{
    host_values::vaimalofo_cond_field(cond)
}
