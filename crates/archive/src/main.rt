// Reads raw words from standard input and prints a line for each item.
#![tactic(auto)]

fn main(rt: HostRuntime) {
    archives::run_all(&rt, &mut rt.stdin());
}
