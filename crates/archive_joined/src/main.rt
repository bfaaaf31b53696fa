// The archive program on constants that stand over the ends of its buffer.
#![tactic(auto)]

fn main(rt: HostRuntime) {
    archives::run_all(&rt, &mut rt.stdin());
}
