// The batch program on an empty input.
#![tactic(auto)]

fn main(rt: HostRuntime) {
    batches::run_all(&rt, &mut rt.stdin());
}
