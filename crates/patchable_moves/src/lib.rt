// Module 6: patchable moves. Arm's meaning of the words is in the crate arm, the words that are asked for in specs/Patchable.antt.
#![tactic(auto)]

ghost use Rattle.std.specs.Prelude.{◌≡◌, ◌<◌};
ghost use Rattle.words.specs.Answer.{said};
ghost use Rattle.words.specs.Listed.{words_of, packed};
ghost use Rattle.writers.specs.Put.{put_of};
ghost use Rattle.patchable_moves.specs.Patchable.{patch_words, patch_said};
ghost use Rattle.patchable_moves.specs.Size.{bits_of, Sizes};

use moves::register::Register;
use moves::{MOVK, MOVZ};
use words::{Opc, Place, Refusal, Words};

const MOVZ32: Opc = Opc(0x52800000);

const MOVK32: Opc = Opc(0x72800000);

// A halfword's number stands at bit 21.
const HALFWORD: u32 = 0x200000;

// The two sizes of a register, in bits.
// Stays: `logical` has an enum like this one; to take it from there would have moves stand on the encoder of logical immediates for two numbers.
#[derive(Clone, Copy)]
enum RegisterSize {
    W32 = 32,
    W64 = 64,
}

impl TryFrom<u32> for RegisterSize {
    type Error = Refusal;

    ghost try_from_gives = { Sizes };

    fn try_from(bits: u32) -> Result<Self, Refusal> {
        match bits {
            32 => Ok(RegisterSize::W32),
            64 => Ok(RegisterSize::W64),
            _ => Err(Refusal::Width),
        }
    }
}

// Always four words at 64 and two at 32, so that another value can be put in their place.
#[tactic(auto, unfolding(crate::specs::Patchable::patch_words, crate::specs::Patchable::patch64, crate::specs::Patchable::patch32))]
fn patchable(value: u64, size: RegisterSize, rd: Register) -> Words
    ensures { result ≡ words_of (patch_words value (bits_of size) rd.number) }
{
    let h = halfwords::cut(value);
    let rd = rd.number;
    match size {
        RegisterSize::W64 => words::four(
            MOVZ.0 + h[0] * 32 + rd,
            MOVK.0 + HALFWORD + h[1] * 32 + rd,
            MOVK.0 + 2 * HALFWORD + h[2] * 32 + rd,
            MOVK.0 + 3 * HALFWORD + h[3] * 32 + rd,
        ),
        RegisterSize::W32 => words::two(
            MOVZ32.0 + h[0] * 32 + rd,
            MOVK32.0 + HALFWORD + h[1] * 32 + rd,
        ),
    }
}

// The words of a patchable move at a register size of 64 or 32, or refusal 1 or 2.
#[tactic(auto, unfolding(crate::specs::Patchable::patch_said))]
pub fn patchable_mov_words(value: u64, size: u32, rd: u32) -> Result<Words, Refusal>
    ensures { said result ≡ packed (patch_said value size rd) }
{
    let size = RegisterSize::try_from(size)?;
    let rd = Register::try_from(rd)?;
    Ok(patchable(value, size, rd))
}

// A patchable move, written: the words from the place on, or refusal 15, 1, 2 or 8 with the run unchanged.
pub fn encode_patchable_mov_imm(
    words: &mut [u32],
    at: Place,
    value: u64,
    size: u32,
    rd: u32,
) -> Result<Place, Refusal>
    ensures { (said result, words.new) ≡ put_of words.old at (patch_said value size rd) }
{
    writers::put(words, at, patchable_mov_words(value, size, rd))
}
