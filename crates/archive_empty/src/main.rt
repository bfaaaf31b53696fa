// The archive program on an input of no bytes.
#![tactic(auto)]

fn main(rt: HostRuntime) {
    archives::run_all(&rt, &mut rt.stdin());
}
