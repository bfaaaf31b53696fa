// The entries of the crate `host_rewrites`.

ghost use Rattle.std.specs.Prelude.{◌≡◌};
ghost use Rattle.host_rewrites.specs.Number.{host_rewrite};

// A word written again from its own fields.
#[unsafe(no_mangle)]
pub extern "C" fn vaimalofo_rewrite(word: u32) -> u64
    ensures { result ≡ host_rewrite word }
{
    host_rewrites::vaimalofo_rewrite(word)
}
