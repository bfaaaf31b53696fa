// A companion of module 7: another distance for a word already written. Its field is cleared, then the tests are the same; 6 is never given.
#![tactic(auto)]

ghost use Rattle.std.specs.Prelude.{◌≡◌};
ghost use Rattle.words.specs.Answer.{said};
ghost use Rattle.words.specs.Listed.{packed};
ghost use Rattle.words.specs.Place.{pos_of, address_of};
ghost use Rattle.writers.specs.Put.{put_of};
ghost use Rattle.disp_targets.specs.Target.{low_of, carrying, carried, word_said, written_said};
ghost use Rattle.retargets.specs.Retarget.{word_at, standing_said, base_in, again_said, again_to};

use disp_targets::{TargetWord, TargetWritten};
use forms::Format;
use words::{Address, ByteDistance, Opc, Place, Refusal, Words};

// The word that stands there with its field cleared, as a base: 7, 8.
fn base(format: u32, there: Result<Opc, Refusal>) -> Result<Opc, Refusal>
    ensures { standing_said result ≡ base_in format (standing_said there) }
{
    let word = Format::try_from(format).and(there)?;
    Ok(displacements::clear_disp(format, word))
}

// The word that stands there with another distance, by value: 7, 8, 11, 4, 5.
pub fn retarget_word(
    format: u32,
    there: Result<Opc, Refusal>,
    distance: ByteDistance,
) -> Result<Words, Refusal>
    ensures { said result ≡ packed (again_said format (standing_said there) distance.0) }
{
    displacements::disp_word(format, base(format, there)?, distance)
}

// The same from a target and the address of the instruction: 7, 8, 11, 4, 5. An ADRP never gives 4, and its answer has the target's low bits.
pub fn retarget_target_word(
    format: u32,
    there: Result<Opc, Refusal>,
    target: Address,
    address: Address,
) -> Result<TargetWord, Refusal>
    ensures { word_said result ≡ carrying (low_of format target.0) (packed (again_to format (standing_said there) target.0 address.0)) }
{
    disp_targets::disp_target_word(format, base(format, there)?, target, address)
}

// The word that stands at a place of a run of words, or 8.
fn found(words: &[u32], at: Place) -> Result<Opc, Refusal>
    ensures { standing_said result ≡ word_at words.now (pos_of at) }
{
    words
        .get(at.position.0)
        .map(|w| Opc(*w))
        .ok_or(Refusal::NoRoom)
}

// The word at a place of a run with another distance: 15, 7, 8, 11, 4, 5.
pub fn retarget(
    words: &mut [u32],
    at: Place,
    format: u32,
    distance: ByteDistance,
) -> Result<Place, Refusal>
    ensures { (said result, words.new) ≡ put_of words.old at (again_said format (word_at words.old (pos_of at)) distance.0) }
{
    let there = found(words, at);
    writers::put(words, at, retarget_word(format, there, distance))
}

// The same from a target; the address of the instruction is that of its place: 15, 7, 8, 11, 4, 5. An ADRP never gives 4, and its answer has the
// target's low bits.
pub fn retarget_to(
    words: &mut [u32],
    at: Place,
    format: u32,
    target: Address,
) -> Result<TargetWritten, Refusal>
    ensures { (written_said result, words.new) ≡ carried (low_of format target.0) (put_of words.old at (again_to format (word_at words.old (pos_of at)) target.0 (address_of at))) }
{
    let there = found(words, at);
    let word = retarget_target_word(format, there, target, words::address_of(at));
    disp_targets::put_target(words, at, word)
}
