// The entries for the tool's host on displacements. Each answers one number, as crates/host says.
#![tactic(auto)]

ghost use Rattle.std.specs.Prelude.{◌≡◌};
ghost use Rattle.words.specs.Place.{place_at, address_of};
ghost use Rattle.displacements.specs.Answer.{disp_said, read_said};
ghost use Rattle.disp_targets.specs.Target.{target_said, low_of};
ghost use Rattle.forms.specs.Form.{form_said};
ghost use Rattle.host.specs.Number.{told, host_put, host_put_to, yes_no};

use words::{Address, ByteDistance, Opc};

// A distance in bytes into a base word at a format: 15, 7, 11, 6, 4, 5, 8.
pub fn vaimalofo_displacement(
    bytes: &mut [u8],
    base_address: u64,
    position: usize,
    format: u32,
    base: u32,
    distance: i64,
) -> u64
    ensures { (result, bytes.new) ≡ host_put bytes.old (place_at base_address position) (disp_said format base distance) }
{
    host::put(
        bytes,
        base_address,
        position,
        displacements::disp_word(format, Opc(base), ByteDistance(distance)),
    )
}

// The same from a target; the address of the instruction is that of its word: 15, 7, 11, 6, 4, 5, 8. An ADRP never gives 4, and its answer has the
// target's low 12 bits from bit 16 on.
pub fn vaimalofo_displacement_to(
    bytes: &mut [u8],
    base_address: u64,
    position: usize,
    format: u32,
    base: u32,
    target: u64,
) -> u64
    ensures { (result, bytes.new) ≡ host_put_to bytes.old (place_at base_address position) (low_of format target) (target_said format base target (address_of (place_at base_address position))) }
{
    let address = words::address_of(host::place(base_address, position));
    let word = disp_targets::disp_target_word(format, Opc(base), Address(target), address);
    host::put_target(bytes, base_address, position, word)
}

// Whether a word is an instruction of a format, 1 or 0: 7.
pub fn vaimalofo_has_form(format: u32, word: u32) -> u64
    ensures { result ≡ told (yes_no (form_said format word)) }
{
    forms::has_form(format, Opc(word)).map_or_else(host::refused, host::yes)
}

// The distance in bytes that a word spells at a format: 7.
pub fn vaimalofo_read_displacement(word: u32, format: u32) -> u64
    ensures { result ≡ told (read_said word format) }
{
    displacements::read_disp(Opc(word), format).map_or_else(
        host::refused,
        |d| words::bits_of(d.0) << 8,
    )
}
