// The entries for the tool's host that bind labels, record uses and finish them, in the manner of the crate `host`. The run is one of words; table and
// sheet are the host's memory, too: a label's entry is 0 where it is unbound, else one more than its word position; a use is a record of C.
#![tactic(auto)]

ghost use Rattle.std.specs.Prelude.{◌≡◌};
ghost use Rattle.words.specs.Place.{place_at};
ghost use Rattle.labels.specs.Sheet.{use_record};
ghost use Rattle.host_labels.specs.Number.{host_bound, host_count, host_bind, host_use, host_finish};
ghost use Rattle.words.specs.Answer.{said};

use labels::Use;
use words::Refusal;

// The number of a binding's answer.
fn bound(b: Result<(), Refusal>) -> u64
    ensures { result ≡ host_bound (said b) }
{
    b.map_or_else(host::refused, |()| 0)
}

// A label is bound to a place: 15, 12, 13, 8.
pub fn vaimalofo_bind_label(
    labels: &mut [usize],
    words: &[u32],
    base_address: u64,
    position: usize,
    label: u32,
) -> u64
    ensures { (result, labels.new) ≡ host_bind labels.old words.now label (place_at base_address position) }
{
    bound(labels::bind(labels, words, label, host::place(base_address, position)))
}

// The number of a count that is at most a sheet's length, or of a refusal.
fn told(c: Result<usize, Refusal>) -> u64
    ensures { result ≡ host_count (said c) }
{
    c.map_or_else(host::refused, |n| (n % 72057594037927936 * 256) as u64)
}

// A use of a label by the word at a place, at a format, is added to the `count` that wait in the sheet: 15, 7, 12, 8, 11, 6, 16, 14. The value is the
// count after it.
pub fn vaimalofo_use_label(
    uses: &mut [Use],
    count: usize,
    label: u32,
    format: u32,
    labels: &[usize],
    words: &[u32],
    base_address: u64,
    position: usize,
) -> u64
    ensures { (result, uses.new) ≡ host_use labels.now words.now uses.old count label (place_at base_address position) format }
{
    let at = host::place(base_address, position);
    let c = label_sheets::use_label(uses, count, labels, words, label, at, format);
    told(c)
}

// Each of the `count` uses that wait gets its word, and the count is then 0: 15, 14, then each use in the sheet's order 7, 12, 8, 11, 6, 16, 4, 5.
pub fn vaimalofo_finish_labels(
    uses: &[Use],
    count: usize,
    labels: &[usize],
    words: &mut [u32],
    base_address: u64,
) -> u64
    ensures { (result, words.new) ≡ host_finish labels.now words.old uses.now count (place_at base_address 0) }
{
    let at = host::place(base_address, 0);
    let c = label_sheets::finish(uses, count, labels, words, at);
    told(c)
}
