// Uses of labels that wait in a lent sheet, whatever holds them: which words they name, and how they are finished. The functions over a sheet fetch, call
// and store; what is decided of one use stands in the crate's root.

ghost use Rattle.std.specs.Prelude.{◌≡◌, List, [], ◌≤◌, ◌<◌, length, take, get_or, slice_get};
ghost use Rattle.labels.specs.Order.{code_of};
ghost use Rattle.labels.specs.Sheet.{none, names, check_of, filled, finish_of};
ghost use Rattle.words.specs.Answer.{said};
ghost use Rattle.labels.specs.declared.Use.{Use};

use labels::Use;
use words::{Place, Refusal};

// What holds uses: it has room for so many, and gives each.
pub trait Sheet {
    ghost uses: { Self → List Use };

    fn room(&self) -> usize
        ensures { result ≡ length (uses self.now) };

    fn at(&self, i: usize) -> Option<Use>
        ensures { result ≡ slice_get (uses self.now) i };
}

// A use that there is.
fn use_at<S: Sheet>(sheet: &S, i: usize) -> Use
    requires { i < length (S.uses sheet.now) }
    ensures { result ≡ get_or (S.uses sheet.now) i none }
{
    sheet.at(i).unwrap()
}

// One of the first n uses names the word k; a count above the sheet counts as the sheet's.
pub fn named<S: Sheet>(sheet: &S, n: usize, k: usize) -> bool
    ensures { result ≡ names k (take n (S.uses sheet.now)) }
{
    for i in 0..words::least(n, sheet.room()) {
        if use_at(sheet, i).at == k {
            return true;
        }
    }
    false
}

// The first refusal among the first n uses, in the sheet's order.
fn check<S: Sheet>(
    sheet: &S,
    n: usize,
    labels: &[usize],
    words: &[u32],
    at: Place,
) -> Result<(), Refusal>
    requires { n ≤ length (S.uses sheet.now) }
    ensures { code_of result ≡ check_of at labels.now words.now [] (take n (S.uses sheet.now)) }
{
    for i in 0..n {
        let u = use_at(sheet, i);
        let again = named(sheet, i, u.at);
        crate::use_number(labels, words, at, u, again)?;
    }
    Ok(())
}

// The words of the first n uses, which passed the check.
fn write<S: Sheet>(sheet: &S, n: usize, labels: &[usize], words: &mut [u32], at: Place)
    requires { (n ≤ length (S.uses sheet.now)) × (check_of at labels.now words.old [] (take n (S.uses sheet.now)) ≡ 0) }
    ensures { words.new ≡ filled at labels.now words.old (take n (S.uses sheet.now)) }
{
    for i in 0..n {
        let u = use_at(sheet, i);
        words[u.at] = crate::fixed_word(labels, at, u, words[u.at]);
    }
}

// Every use's word is written, and none waits; or nothing changes: 15, 14, then each use 7, 12, 8, 11, 6, 16, 4, 5. The base is the record's; its
// position is not asked for.
pub fn finish<S: Sheet>(
    sheet: &S,
    n: usize,
    labels: &[usize],
    words: &mut [u32],
    at: Place,
) -> Result<usize, Refusal>
    ensures { (said result, words.new) ≡ finish_of at labels.now words.old (S.uses sheet.now) n }
{
    labels::may_finish(at, n, sheet.room())?;
    check(sheet, n, labels, words, at)?;
    write(sheet, n, labels, words, at);
    Ok(0)
}
