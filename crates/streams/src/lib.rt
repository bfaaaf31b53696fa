// What the programs do with an input that they are lent: reads until a buffer is full.
#![tactic(auto)]

ghost use Rattle.std.specs.Prelude.{◌≡◌, ◌<◌, ◌≤◌, false, length, take, IfOk, OnOk};
ghost use Rattle.std.specs.Io.{ReadsAtMost};
ghost use Rattle.std.specs.Io.KnownBytes.{Consumes, IsAtEnd};
ghost use Rattle.streams.specs.Streams.{OnlyTakes};

use std::io;
use std::io::Read;

// How many bytes stand at the start of a buffer, and whether a read failed behind them.
// Stays: what was read before a failure counts, so this is no Result.
#[derive(Clone, Copy)]
pub struct Filled {
    pub count: usize,
    pub failed: bool,
}

// Reads until the buffer is full, the input ends or a read fails: how many bytes stand at its start, and the failure.
fn read_until<R: Read>(input: &mut R, buf: &mut [u8]) -> (usize, io::Result<()>)
    ensures in_bounds { result.0 ≤ length buf.new }
    ensures bytes { Consumes (R.remaining input.old) (R.remaining input.new) (take result.0 buf.new) }
    ensures end { OnOk result.1 (result.0 < length buf.new → IsAtEnd (R.remaining input.new)) }
{
    let mut done = 0;
    // Stays: how far a turn goes is what the read answers, so there is no range to go over.
    while done < buf.len() {
        match input.read(&mut buf[done..]) {
            Ok(0) => return (done, Ok(())),
            Ok(n) => done += n,
            Err(why) => return (done, Err(why)),
        }
    }
    (done, Ok(()))
}

// Reads until the buffer is full or the input ends, and says how many bytes stand at its start; or a read fails, and its failure is answered.
pub fn read_full<R: Read>(input: &mut R, buf: &mut [u8]) -> io::Result<usize>
    ensures in_bounds { ReadsAtMost result buf.new }
    ensures front { OnlyTakes (R.remaining input.old) (R.remaining input.new) }
    ensures bytes { IfOk result (λ n. Consumes (R.remaining input.old) (R.remaining input.new) (take n buf.new)) }
    ensures end { IfOk result (λ n. n < length buf.new → IsAtEnd (R.remaining input.new)) }
{
    let (count, end) = read_until(input, buf);
    end?;
    Ok(count)
}

// The same, where a failure is told on standard error, and what was read before it stands.
pub fn fill<R: Read, E: Eprint>(rt: &E, input: &mut R, buf: &mut [u8]) -> Filled
    ensures in_bounds { result.count ≤ length buf.new }
    ensures bytes { Consumes (R.remaining input.old) (R.remaining input.new) (take result.count buf.new) }
    ensures end { result.failed ≡ false → result.count < length buf.new → IsAtEnd (R.remaining input.new) }
{
    let (count, end) = read_until(input, buf);
    match end {
        Ok(()) => Filled {
            count,
            failed: false,
        },
        Err(why) => {
            let _ = eprintln!(rt; "standard input: {why}");
            Filled {
                count,
                failed: true,
            }
        }
    }
}
