// Request b of document 02: uses of labels that wait in three lent runs of numbers, and how they are finished. What is decided of one use stands in
// `label_uses`, and what is done with those of a sheet in `label_uses::sheets`.
#![tactic(auto)]

ghost use Rattle.std.specs.Prelude.{◌≡◌};
ghost use Rattle.labels.specs.Sheet.{use_record, finish_of};
ghost use Rattle.label_runs.specs.Flat.{uses_of, use_runs};
ghost use Rattle.words.specs.Answer.{said};

use label_uses::sheets::{self, Sheet};
use labels::Use;
use words::{Place, Refusal};

// Three lent runs: the labels of the uses, their positions and their formats.
#[derive(Clone, Copy)]
struct Runs<'a> {
    marks: &'a [u32],
    ats: &'a [usize],
    formats: &'a [u32],
}

impl Sheet for Runs<'_> {
    ghost uses = { λ s. uses_of s.marks.now s.ats.now s.formats.now };

    // The shortest run is the room.
    #[tactic(auto, using(crate::proofs::Flat::uses_length))]
    fn room(&self) -> usize {
        words::least(
            words::least(self.marks.len(), self.ats.len()),
            self.formats.len(),
        )
    }

    #[tactic(auto, using(crate::proofs::Flat::uses_length))]
    fn at(&self, i: usize) -> Option<Use> {
        if i < self.room() {
            Some(Use {
                label: self.marks[i],
                at: self.ats[i],
                format: self.formats[i],
            })
        } else {
            None
        }
    }
}

// A use by the word at a place is added to the n that wait; or nothing changes: 15, 7, 12, 8, 11, 6, 16, 14.
// Stays: the three runs are three arguments, here and in finish_flat, since what may not change is how a public function is called.
pub fn use_flat(
    marks: &mut [u32],
    ats: &mut [usize],
    formats: &mut [u32],
    n: usize,
    labels: &[usize],
    words: &[u32],
    label: u32,
    at: Place,
    format: u32,
) -> Result<usize, Refusal>
    ensures { (said result, (marks.new, (ats.new, formats.new))) ≡ use_runs labels.now words.now (marks.old, (ats.old, formats.old)) n at (use_record label at format) }
{
    let u = Use {
        label,
        at: at.position.0,
        format,
    };
    let sheet = Runs {
        marks,
        ats,
        formats,
    };
    let again = sheets::named(&sheet, n, u.at);
    label_uses::may_use(labels, words, at, u, again, n, sheet.room())?;
    marks[n] = label;
    ats[n] = u.at;
    formats[n] = format;
    Ok(n + 1)
}

// Every use's word is written, and none waits; or nothing changes: 15, 14, then each use 7, 12, 8, 11, 6, 16, 4, 5. The base is the record's; its
// position is not asked for.
pub fn finish_flat(
    marks: &[u32],
    ats: &[usize],
    formats: &[u32],
    n: usize,
    labels: &[usize],
    words: &mut [u32],
    at: Place,
) -> Result<usize, Refusal>
    ensures { (said result, words.new) ≡ finish_of at labels.now words.old (uses_of marks.now ats.now formats.now) n }
{
    let sheet = Runs {
        marks,
        ats,
        formats,
    };
    sheets::finish(&sheet, n, labels, words, at)
}
