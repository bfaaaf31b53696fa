// Requests at which the Rust answers otherwise or not at all: stdout is what document 01 says.
#![tactic(auto)]

use std::io;

fn main(rt: HostRuntime) -> io::Result<()> {
    requests::answer_all(&mut rt.stdin(), &mut rt.stdout())
}
