// The entries of the crate `host_logical`.

ghost use Rattle.std.specs.Prelude.{◌≡◌};
ghost use Rattle.words.specs.Place.{place_at};
ghost use Rattle.logical_words.specs.Word.{ForWord};
ghost use Rattle.host.specs.Number.{told, host_put};
ghost use Rattle.host_logical.specs.Fields.{spelled, ForFields, ForNormal, words_of_mask, ForMask};

// The fields that spell the low bits of a value, at width 32 or 64, with the element length: 1, 3.
#[unsafe(no_mangle)]
pub extern "C" fn vaimalofo_logical_fields(value: u64, width: u32) -> u64
    ensures { ForFields width value (λ a. result ≡ told (spelled a)) }
{
    host_logical::vaimalofo_logical_fields(value, width)
}

// The same of fields in normal form, R reduced by the element length: 1, 3.
#[unsafe(no_mangle)]
pub extern "C" fn vaimalofo_normalise_logical(n: u32, s: u32, r: u32, width: u32) -> u64
    ensures { ForNormal width n s r (λ a. result ≡ told (spelled a)) }
{
    host_logical::vaimalofo_normalise_logical(n, s, r, width)
}

// The mask that fields decode to, from the run's first byte on: 1, 3, 8.
#[unsafe(no_mangle)]
pub extern "C" fn vaimalofo_decode_logical(
    bytes: &mut [u8],
    n: u32,
    s: u32,
    r: u32,
    width: u32,
) -> u64
    ensures { ForMask width n s r (λ a. (result, bytes.new) ≡ host_put bytes.old (place_at 0 0) (words_of_mask a)) }
{
    host_logical::vaimalofo_decode_logical(bytes, n, s, r, width)
}

// The logical word of a value: 15, 7, 1, 2, 3, 8.
#[unsafe(no_mangle)]
pub extern "C" fn vaimalofo_logical_word(
    bytes: &mut [u8],
    base_address: u64,
    position: usize,
    operation: u32,
    value: u64,
    width: u32,
    rn: u32,
    rd: u32,
) -> u64
    ensures { ForWord operation value width rn rd (λ x. (result, bytes.new) ≡ host_put bytes.old (place_at base_address position) x) }
{
    host_logical::vaimalofo_logical_word(
        bytes,
        base_address,
        position,
        operation,
        value,
        width,
        rn,
        rd,
    )
}
