// The entries for the tool's host: numbers and runs of bytes only. Each answers one number: a refusal's number in its low byte (0: nothing was
// refused), and in the bits above it, read as signed, the value (0 with a refusal). A base address is that of the run's first word, a multiple of 4; a
// position counts words; a word is four bytes, low byte first; a tail under four bytes is no room.
#![tactic(auto)]

ghost use Rattle.std.specs.Prelude.{◌≡◌};
ghost use Rattle.words.specs.Said.{Said};
ghost use Rattle.words.specs.Answer.{number_of, said};
ghost use Rattle.words.specs.Listed.{listed};
ghost use Rattle.words.specs.Place.{place_at};
ghost use Rattle.moves.specs.Moves.{mov_said};
ghost use Rattle.patchable_moves.specs.Patchable.{patch_said};
ghost use Rattle.disp_targets.specs.Target.{carrying, low_said, word_said};
ghost use Rattle.host.specs.Number.{told, host_put, counted_to, host_put_to, host_target, yes_no};
ghost use Rattle.host.specs.Private.{Near};

use disp_targets::{Low12, TargetWord};
use words::{Address, Place, Refusal, WordPos, Words};

// A refusal has no value.
pub fn refused(r: Refusal) -> u64
    ensures { result ≡ number_of r }
{
    u64::from(words::number(r))
}

// The place of a base address and a position.
pub fn place(base: u64, position: usize) -> Place
    ensures { result ≡ place_at base position }
{
    Place {
        base: Address(base),
        position: WordPos(position),
    }
}

// The number of words that a writer put from a place on, with the low bits of a target above it, or the writer's refusal.
fn written(at: Place, w: Result<Place, Refusal>, low: Option<Low12>) -> u64
    requires { Near at (said w) }
    ensures { result ≡ told (counted_to at (carrying (low_said low) (said w))) }
{
    match w {
        Ok(p) => {
            let count = (p.position.0 - at.position.0) as u64;
            count * 256 + low.map_or(0, |l| u64::from(l.0) * 65536)
        }
        Err(r) => refused(r),
    }
}

// Words by value, from a place on, and the low bits of a target.
fn put_with(bytes: &mut [u8], at: Place, m: Result<Words, Refusal>, low: Option<Low12>) -> u64
    ensures { (result, bytes.new) ≡ host_put_to bytes.old at (low_said low) (listed (said m)) }
{
    written(at, writers::put_bytes(bytes, at, m), low)
}

// Words by value, from a place on.
pub fn put(bytes: &mut [u8], base: u64, position: usize, m: Result<Words, Refusal>) -> u64
    ensures { (result, bytes.new) ≡ host_put bytes.old (place_at base position) (listed (said m)) }
{
    put_with(bytes, place(base, position), m, None)
}

// A target's word by value, or its refusal, from a place on.
pub fn put_target(
    bytes: &mut [u8],
    base: u64,
    position: usize,
    m: Result<TargetWord, Refusal>,
) -> u64
    ensures { (result, bytes.new) ≡ host_target bytes.old (place_at base position) (word_said m) }
{
    let at = place(base, position);
    match m {
        Ok(w) => put_with(bytes, at, Ok(w.words), w.low),
        Err(r) => put_with(bytes, at, Err(r), None),
    }
}

// 1 above the low byte, or 0.
pub fn yes(b: bool) -> u64
    ensures { result ≡ told (yes_no (Said.ok b)) }
{
    if b { 256 } else { 0 }
}

// A move of a value to a register: 15, 2, 8.
pub fn vaimalofo_move(
    bytes: &mut [u8],
    base_address: u64,
    position: usize,
    value: u64,
    register: u32,
) -> u64
    ensures { (result, bytes.new) ≡ host_put bytes.old (place_at base_address position) (mov_said value register) }
{
    put(
        bytes,
        base_address,
        position,
        moves::mov_words(value, register),
    )
}

// A patchable move at a register size of 64 or 32: 15, 1, 2, 8.
pub fn vaimalofo_patchable_move(
    bytes: &mut [u8],
    base_address: u64,
    position: usize,
    value: u64,
    size: u32,
    register: u32,
) -> u64
    ensures { (result, bytes.new) ≡ host_put bytes.old (place_at base_address position) (patch_said value size register) }
{
    put(
        bytes,
        base_address,
        position,
        patchable_moves::patchable_mov_words(value, size, register),
    )
}
