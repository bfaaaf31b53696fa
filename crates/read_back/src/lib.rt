// Request a of document 02: what this port writes is read back as what was asked (proofs/). No machine code of its own.
#![tactic(auto)]
