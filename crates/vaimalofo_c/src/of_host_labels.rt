// The entries of the crate `host_labels`.

ghost use Rattle.std.specs.Prelude.{◌≡◌};
ghost use Rattle.words.specs.Place.{place_at};
ghost use Rattle.host_labels.specs.Number.{host_bind, host_use, host_finish};

use labels::Use;

// A label is bound to a place: 15, 12, 13, 8.
#[unsafe(no_mangle)]
pub extern "C" fn vaimalofo_bind_label(
    labels: &mut [usize],
    words: &[u32],
    base_address: u64,
    position: usize,
    label: u32,
) -> u64
    ensures { (result, labels.new) ≡ host_bind labels.old words.now label (place_at base_address position) }
{
    host_labels::vaimalofo_bind_label(labels, words, base_address, position, label)
}

// A use of a label by the word at a place, at a format, is added to the `count` that wait in the sheet: 15, 7, 12, 8, 11, 6, 16, 14. The value is the
// count after it.
#[unsafe(no_mangle)]
pub extern "C" fn vaimalofo_use_label(
    uses: &mut [Use],
    count: usize,
    label: u32,
    format: u32,
    labels: &[usize],
    words: &[u32],
    base_address: u64,
    position: usize,
) -> u64
    ensures { (result, uses.new) ≡ host_use labels.now words.now uses.old count label (place_at base_address position) format }
{
    host_labels::vaimalofo_use_label(
        uses,
        count,
        label,
        format,
        labels,
        words,
        base_address,
        position,
    )
}

// Each of the `count` uses that wait gets its word, and the count is then 0: 15, 14, then each use in the sheet's order 7, 12, 8, 11, 6, 16, 4, 5.
#[unsafe(no_mangle)]
pub extern "C" fn vaimalofo_finish_labels(
    uses: &[Use],
    count: usize,
    labels: &[usize],
    words: &mut [u32],
    base_address: u64,
) -> u64
    ensures { (result, words.new) ≡ host_finish labels.now words.old uses.now count (place_at base_address 0) }
{
    host_labels::vaimalofo_finish_labels(uses, count, labels, words, base_address)
}
