// The entries for the tool's host that give a word already written another distance, in the manner of the crate `host`.
#![tactic(auto)]

ghost use Rattle.std.specs.Prelude.{◌≡◌};
ghost use Rattle.words.specs.Place.{place_at, address_of};
ghost use Rattle.writers.specs.Put.{words_in};
ghost use Rattle.disp_targets.specs.Target.{low_of};
ghost use Rattle.retargets.specs.Retarget.{word_at, standing_said, again_said, again_to};
ghost use Rattle.host.specs.Number.{host_put, host_put_to};

use words::{Address, ByteDistance, Opc, Refusal};

// The word that stands at a position of a run of bytes, or 8.
fn found(bytes: &[u8], position: usize) -> Result<Opc, Refusal>
    ensures { standing_said result ≡ word_at (words_in bytes.now) position }
{
    let (words, _) = bytes.as_chunks::<4>();
    let word = words.get(position).ok_or(Refusal::NoRoom)?;
    Ok(Opc(u32::from_le_bytes(*word)))
}

// The word at a place with another distance: 15, 7, 8, 11, 4, 5.
pub fn vaimalofo_retarget(
    bytes: &mut [u8],
    base_address: u64,
    position: usize,
    format: u32,
    distance: i64,
) -> u64
    ensures { (result, bytes.new) ≡ host_put bytes.old (place_at base_address position) (again_said format (word_at (words_in bytes.old) position) distance) }
{
    let there = found(bytes, position);
    let word = retargets::retarget_word(format, there, ByteDistance(distance));
    host::put(bytes, base_address, position, word)
}

// The same from a target; the address of the instruction is that of its word: 15, 7, 8, 11, 4, 5. An ADRP never gives 4, and its answer has the
// target's low 12 bits from bit 16 on.
pub fn vaimalofo_retarget_to(
    bytes: &mut [u8],
    base_address: u64,
    position: usize,
    format: u32,
    target: u64,
) -> u64
    ensures { (result, bytes.new) ≡ host_put_to bytes.old (place_at base_address position) (low_of format target) (again_to format (word_at (words_in bytes.old) position) target (address_of (place_at base_address position))) }
{
    let there = found(bytes, position);
    let address = words::address_of(host::place(base_address, position));
    let word = retargets::retarget_target_word(format, there, Address(target), address);
    host::put_target(bytes, base_address, position, word)
}
