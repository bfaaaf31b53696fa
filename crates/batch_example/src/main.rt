// The batch program on document 01's three records.
#![tactic(auto)]

fn main(rt: HostRuntime) {
    batches::run_all(&rt, &mut rt.stdin());
}
