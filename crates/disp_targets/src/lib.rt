// Module 7: the distance from an instruction to a target in the instruction's field; for an ADRP that of their pages, and the target's low bits.
#![tactic(auto)]

ghost use Rattle.std.specs.Prelude.{◌≡◌, ◌==◌};
ghost use Rattle.words.specs.Listed.{packed};
ghost use Rattle.words.specs.Place.{address_of};
ghost use Rattle.writers.specs.Put.{put_of};
ghost use Rattle.disp_targets.specs.Target.{page_of, between, target_said, low_of, carrying, carried, low_said, word_said, written_said, put_to};

use forms::Format;
use words::{Address, ByteDistance, Opc, Place, Refusal, Words};

// The low 12 bits of an address: where it lies in its page.
#[derive(Clone, Copy)]
pub struct Low12(pub u32);

// What the target entry makes by value: the word, and for an ADRP the target's low bits too, for the ADD that follows.
#[derive(Clone, Copy)]
pub struct TargetWord {
    pub words: Words,
    pub low: Option<Low12>,
}

// What it answers where it writes: the place just past the word, and for an ADRP the target's low bits too.
#[derive(Clone, Copy)]
pub struct TargetWritten {
    pub past: Place,
    pub low: Option<Low12>,
}

// Whether a format's distances are those of pages.
fn by_page(format: u32) -> bool
    ensures { result ≡ (format == 4) }
{
    format == Format::Adrp as u32
}

// An address as distances are taken from it and to it: for ADRP its page.
fn page(format: u32, address: u64) -> u64
    ensures { result ≡ page_of format address }
{
    if by_page(format) {
        address - address % 4096
    } else {
        address
    }
}

// The target minus the address, each as the format takes it, modulo 2^64, read as signed.
fn distance_to(format: u32, target: Address, address: Address) -> ByteDistance
    ensures { result.0 ≡ between (page_of format target.0) (page_of format address.0) }
{
    let apart = page(format, target.0).wrapping_sub(page(format, address.0));
    ByteDistance(words::signed_of(apart))
}

// The low bits that a format's answer carries.
fn low_12(format: u32, target: Address) -> Option<Low12>
    ensures { low_said result ≡ low_of format target.0 }
{
    by_page(format).then_some(Low12((target.0 % 4096) as u32))
}

// The word of a base, a target and the address of the instruction, by value: 7, 11, 6, 4, 5. An ADRP never gives 4, and its answer has the target's
// low bits.
pub fn disp_target_word(
    format: u32,
    base: Opc,
    target: Address,
    address: Address,
) -> Result<TargetWord, Refusal>
    ensures { word_said result ≡ carrying (low_of format target.0) (packed (target_said format base.0 target.0 address.0)) }
{
    let words = displacements::disp_word(format, base, distance_to(format, target, address))?;
    let low = low_12(format, target);
    Ok(TargetWord { words, low })
}

// A target's word by value, or its refusal, at a place. The writer has the refusal too, since 15 comes first.
pub fn put_target(
    words: &mut [u32],
    at: Place,
    m: Result<TargetWord, Refusal>,
) -> Result<TargetWritten, Refusal>
    ensures { (written_said result, words.new) ≡ put_to (put_of words.old at) (word_said m) }
{
    let past = writers::put(words, at, m.map(|w| w.words))?;
    let low = m?.low;
    Ok(TargetWritten { past, low })
}

// The word of a base and a target at a place, which has the address of the instruction: 15, 7, 11, 6, 4, 5, 8. An ADRP never gives 4, and its answer
// has the target's low bits.
pub fn emit_disp_target(
    words: &mut [u32],
    at: Place,
    format: u32,
    base: Opc,
    target: Address,
) -> Result<TargetWritten, Refusal>
    ensures { (written_said result, words.new) ≡ carried (low_of format target.0) (put_of words.old at (target_said format base.0 target.0 (address_of at))) }
{
    put_target(
        words,
        at,
        disp_target_word(format, base, target, words::address_of(at)),
    )
}
