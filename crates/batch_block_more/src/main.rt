// The batch program on an input of a block and one byte.
#![tactic(auto)]

fn main(rt: HostRuntime) {
    batches::run_all(&rt, &mut rt.stdin());
}
