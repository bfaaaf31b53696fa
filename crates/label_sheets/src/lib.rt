// Request b of document 02: uses of labels that wait in a lent sheet, a slice of use records, and how they are finished. What is decided of one use stands
// in `label_uses`, and what is done with those of a sheet in `label_uses::sheets`.
#![tactic(auto)]

ghost use Rattle.std.specs.Prelude.{◌≡◌};
ghost use Rattle.labels.specs.Sheet.{use_record, use_of, finish_of};
ghost use Rattle.words.specs.Answer.{said};

use label_uses::sheets::{self, Sheet};
use labels::Use;
use words::{Place, Refusal};

// A lent slice of use records.
#[derive(Clone, Copy)]
struct Records<'a>(&'a [Use]);

impl Sheet for Records<'_> {
    ghost uses = { λ s. s.0.now };

    fn room(&self) -> usize {
        self.0.len()
    }

    fn at(&self, i: usize) -> Option<Use> {
        self.0.get(i).copied()
    }
}

// Stays, here and below: how many uses wait is a number beside the run, since C lends both.
// Every use's word is written, and none waits; or nothing changes: 15, 14, then each use 7, 12, 8, 11, 6, 16, 4, 5. The base is the record's; its
// position is not asked for.
pub fn finish(
    uses: &[Use],
    n: usize,
    labels: &[usize],
    words: &mut [u32],
    at: Place,
) -> Result<usize, Refusal>
    ensures { (said result, words.new) ≡ finish_of at labels.now words.old uses.now n }
{
    sheets::finish(&Records(uses), n, labels, words, at)
}

// A use by the word at a place is added to the n that wait; or nothing changes: 15, 7, 12, 8, 11, 6, 16, 14.
pub fn use_label(
    uses: &mut [Use],
    n: usize,
    labels: &[usize],
    words: &[u32],
    label: u32,
    at: Place,
    format: u32,
) -> Result<usize, Refusal>
    ensures { (said result, uses.new) ≡ use_of labels.now words.now uses.old n at (use_record label at format) }
{
    let u = Use {
        label,
        at: at.position.0,
        format,
    };
    let again = sheets::named(&Records(uses), n, u.at);
    label_uses::may_use(labels, words, at, u, again, n, uses.len())?;
    uses[n] = u;
    Ok(n + 1)
}
