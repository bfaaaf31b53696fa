// The entries of the crate `host_reader`.

ghost use Rattle.std.specs.Prelude.{◌≡◌};
ghost use Rattle.host_reader.specs.Numbers.{host_read};

// What stands at a position of a run of words, kind 0 being its end: 8.
#[unsafe(no_mangle)]
pub extern "C" fn vaimalofo_read(words: &[u32], position: usize, numbers: &mut [u64]) -> u64
    ensures { (result, numbers.new) ≡ host_read words.now position numbers.old }
{
    host_reader::vaimalofo_read(words, position, numbers)
}
