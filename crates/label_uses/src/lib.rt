// Request b of document 02: what is decided of one use of a label, by value: whether it is taken, whether it has a word, and the word. What is done
// with the uses of a sheet stands in `sheets`.
#![tactic(auto)]

ghost use Rattle.std.specs.Prelude.{◌≡◌, ◌+◌, ◌<◌, get_or};
ghost use Rattle.words.specs.Place.{address_of, base_of, place_at};
ghost use Rattle.words.specs.Listed.{packed};
ghost use Rattle.disp_targets.specs.Target.{low_of, carrying, word_said};
ghost use Rattle.labels.specs.Order.{first, code_of};
ghost use Rattle.labels.specs.Sheet.{room_for, base_tests, use_refusal, target, made_from, word_number, fixed_of};

pub mod sheets;

use disp_targets::TargetWord;
use labels::Use;
use words::{ByteDistance, Opc, Place, Refusal, WordPos};

// A label's entry, 0 where it has none.
// Stays: an entry is a number, 0 where the label is unbound and else its position and 1, and no Option: the table is lent by C.
fn entry_of(labels: &[usize], label: u32) -> usize
    ensures { result ≡ get_or labels.now label 0 }
{
    labels.get(label as usize).copied().unwrap_or(0)
}

// The position of a label that is bound.
#[tactic(auto, unfolding(labels::specs::Sheet::target))]
fn target_of(labels: &[usize], u: Use) -> usize
    ensures { result ≡ target labels.now u }
{
    entry_of(labels, u.label).saturating_sub(1)
}

// Whether a word is a base of a format: 11, 6. At distance 0 module 7 tests nothing else.
fn base_test(format: u32, base: Opc) -> Result<(), Refusal>
    requires { format < 6 }
    ensures { code_of result ≡ first (base_tests format base.0) 0 }
{
    displacements::disp_word(format, base, ByteDistance(0))?;
    Ok(())
}

// Stays, here and below: `again` and `named` are a word in a line of tests, and each is one test alone.
// Whether a use is taken: 15, 7, 12, 8, 11, 6, 16, 14. `again` says that an earlier one of the n uses that wait names the word; the sheet has room for
// `there`.
#[tactic(auto, unfolding(labels::specs::Sheet::use_refusal))]
pub fn may_use(
    labels: &[usize],
    words: &[u32],
    at: Place,
    u: Use,
    again: bool,
    n: usize,
    there: usize,
) -> Result<(), Refusal>
    ensures { code_of result ≡ use_refusal labels.now words.now at u again (room_for there (n + 1)) }
{
    if !labels::is_aligned(at) {
        return Err(Refusal::Unaligned);
    }
    if 6 <= u.format {
        return Err(Refusal::Unknown);
    }
    if !labels::is_label(labels, u.label) {
        return Err(Refusal::Label);
    }
    let word = *words.get(u.at).ok_or(Refusal::NoRoom)?;
    base_test(u.format, Opc(word))?;
    if again {
        return Err(Refusal::Again);
    }
    if !labels::has_room(n, there) {
        return Err(Refusal::Full);
    }
    Ok(())
}

// The place of a position at another place's base.
fn moved(at: Place, position: usize) -> Place
    ensures { result ≡ place_at (base_of at) position }
{
    Place {
        base: at.base,
        position: WordPos(position),
    }
}

// Module 7's word of a use over its base word.
#[tactic(auto, unfolding(labels::specs::Sheet::made_from))]
fn made_word(labels: &[usize], at: Place, u: Use, base: u32) -> Result<TargetWord, Refusal>
    ensures { word_said result ≡ carrying (low_of u.format (address_of (place_at (base_of at) (target labels.now u)))) (packed (made_from at labels.now u base)) }
{
    let target = words::address_of(moved(at, target_of(labels, u)));
    disp_targets::disp_target_word(
        u.format,
        Opc(base),
        target,
        words::address_of(moved(at, u.at)),
    )
}

// Whether a use has a word: 7, 12, 8, 11, 6, 16, 4, 5. `named` says that an earlier use names the word.
#[tactic(auto, unfolding(labels::specs::Sheet::word_number))]
pub fn use_number(
    labels: &[usize],
    words: &[u32],
    at: Place,
    u: Use,
    named: bool,
) -> Result<(), Refusal>
    ensures { code_of result ≡ word_number at labels.now words.now named u }
{
    if 6 <= u.format {
        return Err(Refusal::Unknown);
    }
    if !labels::is_label(labels, u.label) {
        return Err(Refusal::Label);
    }
    if entry_of(labels, u.label) == 0 {
        return Err(Refusal::Label);
    }
    let base = *words.get(u.at).ok_or(Refusal::NoRoom)?;
    if words.len() < target_of(labels, u) {
        return Err(Refusal::NoRoom);
    }
    base_test(u.format, Opc(base))?;
    if named {
        return Err(Refusal::Again);
    }
    made_word(labels, at, u, base).map(|_| ())
}

// The word of a use over its base word, or the base word.
pub fn fixed_word(labels: &[usize], at: Place, u: Use, base: u32) -> u32
    ensures { result ≡ fixed_of at labels.now u base }
{
    made_word(labels, at, u, base).map_or(base, |w| w.words.a)
}
