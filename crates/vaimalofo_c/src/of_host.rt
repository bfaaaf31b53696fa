// The entries of the crate `host`.

ghost use Rattle.std.specs.Prelude.{◌≡◌};
ghost use Rattle.words.specs.Place.{place_at};
ghost use Rattle.moves.specs.Moves.{mov_said};
ghost use Rattle.patchable_moves.specs.Patchable.{patch_said};
ghost use Rattle.host.specs.Number.{host_put};

// A move of a value to a register: 15, 2, 8.
#[unsafe(no_mangle)]
pub extern "C" fn vaimalofo_move(
    bytes: &mut [u8],
    base_address: u64,
    position: usize,
    value: u64,
    register: u32,
) -> u64
    ensures { (result, bytes.new) ≡ host_put bytes.old (place_at base_address position) (mov_said value register) }
{
    host::vaimalofo_move(bytes, base_address, position, value, register)
}

// A patchable move at a register size of 64 or 32: 15, 1, 2, 8.
#[unsafe(no_mangle)]
pub extern "C" fn vaimalofo_patchable_move(
    bytes: &mut [u8],
    base_address: u64,
    position: usize,
    value: u64,
    size: u32,
    register: u32,
) -> u64
    ensures { (result, bytes.new) ≡ host_put bytes.old (place_at base_address position) (patch_said value size register) }
{
    host::vaimalofo_patchable_move(bytes, base_address, position, value, size, register)
}
