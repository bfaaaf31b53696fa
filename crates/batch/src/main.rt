// Reads records from standard input and prints a line for each.
#![tactic(auto)]

fn main(rt: HostRuntime) {
    batches::run_all(&rt, &mut rt.stdin());
}
