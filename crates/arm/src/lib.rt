// Arm's definitions (specs/) and the laws about them (proofs/). No machine code of its own.
#![tactic(auto)]
