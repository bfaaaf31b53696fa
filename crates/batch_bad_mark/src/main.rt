// The batch program on an input with a bad mark in the middle.
#![tactic(auto)]

fn main(rt: HostRuntime) {
    batches::run_all(&rt, &mut rt.stdin());
}
