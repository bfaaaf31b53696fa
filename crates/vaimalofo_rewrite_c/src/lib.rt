// The static library's C entry that writes a word again, in the manner of the crate `vaimalofo_c`. It is a crate of its own so that `items::read_word` has
// one caller in each member of the library, and is compiled into it: the entry that reads a run is then twice as fast.
#![tactic(auto)]

mod of_host_rewrites;
