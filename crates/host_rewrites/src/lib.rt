// The entry for the tool's host that writes a word again, in the manner of the crate `host`. It is a crate of its own so that `items::read_word` has one
// caller in each member of the library, and is compiled into it: the entry that reads a run is then twice as fast.
#![tactic(auto)]

ghost use Rattle.std.specs.Prelude.{◌≡◌};
ghost use Rattle.host_rewrites.specs.Number.{host_rewrite};

use words::Opc;

// A word written again from its own fields.
pub fn vaimalofo_rewrite(word: u32) -> u64
    ensures { result ≡ host_rewrite word }
{
    item_words::write_item(items::read_word(Opc(word))).map_or_else(
        host::refused,
        |f| u64::from(f.a) * 256,
    )
}
