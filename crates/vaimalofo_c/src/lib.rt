// The static library's C entries but for those of the reader. Each calls the function of its own name in the crate that its file is named after, and
// promises what that one does, in its words: gate/declarations holds them to it.
#![tactic(auto)]

mod of_host;
mod of_host_displacements;
mod of_host_labels;
mod of_host_logical;
mod of_host_retargets;
mod of_host_values;
