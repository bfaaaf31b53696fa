// The static library's C entry that reads words back, in the manner of the crate `vaimalofo_c`.
#![tactic(auto)]

mod of_host_reader;
