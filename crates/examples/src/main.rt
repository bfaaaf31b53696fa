// Document 01's examples, the marked ones and those to be run only: stdin asks for each in its order, and stdout is what document 01 says.
#![tactic(auto)]

use std::io;

fn main(rt: HostRuntime) -> io::Result<()> {
    requests::answer_all(&mut rt.stdin(), &mut rt.stdout())
}
