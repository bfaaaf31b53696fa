// Request b of document 02: labels that are bound late. A label's entry in the lent table is 0 where it is unbound, and one more than its word
// position where it is bound. Here are labels, how many uses may wait, and what a call answers; what is decided of one use stands in `label_uses`.
#![tactic(auto)]

ghost use Rattle.std.specs.Prelude.{◌≡◌, ◌+◌};
ghost use Rattle.labels.specs.Order.{first, code_of};
ghost use Rattle.labels.specs.Sheet.{aligned, names_label, room_for, bind_of, finish_tests, counted_of};
ghost use Rattle.words.specs.Answer.{said};

use words::{Place, Refusal};

// Labels are numbered below this, and at most so many uses wait.
const LABELS: usize = 256;

const USES: usize = 1024;

// A word that waits for a label: the word at position `at` gets the distance to the label, at a format. A host lends a run of these.
#[repr(C)]
#[derive(Clone, Copy)]
pub struct Use {
    pub label: u32,
    pub at: usize,
    pub format: u32,
}

// Whether there is a label of this number in the table.
#[tactic(auto, unfolding(crate::specs::Sheet::names_label))]
pub fn is_label(labels: &[usize], label: u32) -> bool
    ensures { result ≡ names_label labels.now label }
{
    let l = label as usize;
    l < LABELS && l < labels.len()
}

// Whether the base of a place is a multiple of 4.
#[tactic(auto, unfolding(crate::specs::Sheet::aligned))]
pub fn is_aligned(at: Place) -> bool
    ensures { result ≡ aligned at }
{
    at.base.0 % 4 == 0
}

// A label is bound to a place: 15, 12, 13, 8.
#[tactic(auto, using(crate::proofs::Decides::label_in))]
pub fn bind(labels: &mut [usize], words: &[u32], label: u32, at: Place) -> Result<(), Refusal>
    ensures { (said result, labels.new) ≡ bind_of labels.old words.now label at }
{
    let l = label as usize;
    let p = at.position.0;
    if !is_aligned(at) {
        return Err(Refusal::Unaligned);
    }
    if !is_label(labels, label) {
        return Err(Refusal::Label);
    }
    if labels[l] != 0 {
        return Err(Refusal::Twice);
    }
    if words.len() < p {
        return Err(Refusal::NoRoom);
    }
    labels[l] = p + 1;
    Ok(())
}

// Whether a sheet with room for `there` uses, of which n wait, takes one more.
#[tactic(auto, unfolding(crate::specs::Sheet::room_for))]
pub fn has_room(n: usize, there: usize) -> bool
    ensures { result ≡ room_for there (n + 1) }
{
    n < USES && n < there
}

// Why n uses of a sheet with room for `there` are not looked at: 15, 14.
#[tactic(auto, unfolding(crate::specs::Sheet::room_for))]
pub fn may_finish(at: Place, n: usize, there: usize) -> Result<(), Refusal>
    ensures { code_of result ≡ first (finish_tests at there n) 0 }
{
    if !is_aligned(at) {
        return Err(Refusal::Unaligned);
    }
    if USES < n || there < n {
        return Err(Refusal::Full);
    }
    Ok(())
}

// What a call answers: so many uses that wait, where the number refuses nothing; else the refusal that has the number.
// Stays: it is public, and promises an answer for every number (counted_of).
pub fn answered(n: usize, r: u32) -> Result<usize, Refusal>
    ensures { said result ≡ counted_of n r }
{
    if r == 0 {
        Ok(n)
    } else {
        Err(words::numbered(r))
    }
}
