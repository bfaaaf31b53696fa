// The entries for the tool's host on logical immediates: fields, masks and words. Each answers one number, as crates/host says.
#![tactic(auto)]

ghost use Rattle.std.specs.Prelude.{◌≡◌, ◌≤◌};
ghost use Rattle.words.specs.Said.{Said};
ghost use Rattle.words.specs.Listed.{list_of};
ghost use Rattle.words.specs.Place.{place_at};
ghost use Rattle.logical_words.specs.Word.{ForWord};
ghost use Rattle.host.specs.Number.{told, host_put};
ghost use Rattle.host_logical.specs.Fields.{spelled, ForFields, ForNormal, words_of_mask, ForMask};

use logical::LogicalImm;
use words::Words;

// length * 16777216 + N * 65536 + S * 256 + R, above the low byte: each has a byte.
fn spelled(f: LogicalImm) -> u64
    requires { (f.n ≤ 1) × (f.s ≤ 63) × (f.r ≤ 63) × (f.length ≤ 64) }
    ensures { result ≡ told (spelled (Said.ok f)) }
{
    (u64::from(f.length) * 16777216 + u64::from(f.n * 65536 + f.s * 256 + f.r)) * 256
}

// The fields that spell the low bits of a value, at width 32 or 64, with the element length: 1, 3.
pub fn vaimalofo_logical_fields(value: u64, width: u32) -> u64
    ensures { ForFields width value (λ a. result ≡ told (spelled a)) }
{
    logical::encode_logical_imm(value, width).map_or_else(host::refused, spelled)
}

// The same of fields in normal form, R reduced by the element length: 1, 3.
pub fn vaimalofo_normalise_logical(n: u32, s: u32, r: u32, width: u32) -> u64
    ensures { ForNormal width n s r (λ a. result ≡ told (spelled a)) }
{
    logical_decoder::normalise(n, s, r, width).map_or_else(host::refused, spelled)
}

// A mask as two words, the low one first.
fn mask_words(m: u64) -> Words
    ensures { Said.ok (list_of result) ≡ words_of_mask (Said.ok m) }
{
    words::two((m % 4294967296) as u32, (m / 4294967296) as u32)
}

// The mask that fields decode to, from the run's first byte on: 1, 3, 8.
pub fn vaimalofo_decode_logical(bytes: &mut [u8], n: u32, s: u32, r: u32, width: u32) -> u64
    ensures { ForMask width n s r (λ a. (result, bytes.new) ≡ host_put bytes.old (place_at 0 0) (words_of_mask a)) }
{
    let mask = logical_decoder::decode_logical_imm(n, s, r, width);
    host::put(bytes, 0, 0, mask.map(mask_words))
}

// The logical word of a value: 15, 7, 1, 2, 3, 8.
pub fn vaimalofo_logical_word(
    bytes: &mut [u8],
    base_address: u64,
    position: usize,
    operation: u32,
    value: u64,
    width: u32,
    rn: u32,
    rd: u32,
) -> u64
    ensures { ForWord operation value width rn rd (λ x. (result, bytes.new) ≡ host_put bytes.old (place_at base_address position) x) }
{
    host::put(
        bytes,
        base_address,
        position,
        logical_words::logical_word(operation, value, width, rn, rd),
    )
}
