// The entries of the crate `host_retargets`.

ghost use Rattle.std.specs.Prelude.{◌≡◌};
ghost use Rattle.words.specs.Place.{place_at, address_of};
ghost use Rattle.writers.specs.Put.{words_in};
ghost use Rattle.disp_targets.specs.Target.{low_of};
ghost use Rattle.retargets.specs.Retarget.{word_at, again_said, again_to};
ghost use Rattle.host.specs.Number.{host_put, host_put_to};

// The word at a place with another distance: 15, 7, 8, 11, 4, 5.
#[unsafe(no_mangle)]
pub extern "C" fn vaimalofo_retarget(
    bytes: &mut [u8],
    base_address: u64,
    position: usize,
    format: u32,
    distance: i64,
) -> u64
    ensures { (result, bytes.new) ≡ host_put bytes.old (place_at base_address position) (again_said format (word_at (words_in bytes.old) position) distance) }
{
    host_retargets::vaimalofo_retarget(bytes, base_address, position, format, distance)
}

// The same from a target; the address of the instruction is that of its word: 15, 7, 8, 11, 4, 5. An ADRP never gives 4, and its answer has the
// target's low 12 bits from bit 16 on.
#[unsafe(no_mangle)]
pub extern "C" fn vaimalofo_retarget_to(
    bytes: &mut [u8],
    base_address: u64,
    position: usize,
    format: u32,
    target: u64,
) -> u64
    ensures { (result, bytes.new) ≡ host_put_to bytes.old (place_at base_address position) (low_of format target) (again_to format (word_at (words_in bytes.old) position) target (address_of (place_at base_address position))) }
{
    host_retargets::vaimalofo_retarget_to(bytes, base_address, position, format, target)
}
