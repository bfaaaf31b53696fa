// The requests of stdin, which the oracle answered: stdout is what it said.
#![tactic(auto)]

use std::io;

fn main(rt: HostRuntime) -> io::Result<()> {
    requests::answer_all(&mut rt.stdin(), &mut rt.stdout())
}
