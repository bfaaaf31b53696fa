// Requests from standard input, each answered by the entry that it names: what stored answers are replayed through. A request is 72 bytes,
// nine numbers of 8 bytes, low byte first: the entry's number and eight arguments.
#![tactic(auto)]

mod answers;
mod runs;

ghost use Rattle.std.specs.Prelude.{◌<◌};
ghost use Rattle.streams.specs.Streams.{OnlyTakes};
ghost use Rattle.requests.specs.Streams.{OnlyAdds};

use std::io;
use std::io::{ErrorKind, Read, Write};

// The entry's number and its arguments.
// Stays: the number is matched where its entry is called; an enum of some thirty entries would be matched twice.
#[derive(Clone, Copy)]
pub(crate) struct Request {
    pub(crate) entry: u64,
    pub(crate) a: u64,
    pub(crate) b: u64,
    pub(crate) c: u64,
    pub(crate) d: u64,
    pub(crate) e: u64,
    pub(crate) f: u64,
    pub(crate) g: u64,
    pub(crate) h: u64,
}

// One of a request's numbers.
fn number(bytes: &[u8; 72], k: usize) -> u64
    requires { k < 9 }
{
    let (numbers, _) = bytes.as_chunks::<8>();
    u64::from_le_bytes(numbers[k])
}

fn read(bytes: &[u8; 72]) -> Request {
    Request {
        entry: number(bytes, 0),
        a: number(bytes, 1),
        b: number(bytes, 2),
        c: number(bytes, 3),
        d: number(bytes, 4),
        e: number(bytes, 5),
        f: number(bytes, 6),
        g: number(bytes, 7),
        h: number(bytes, 8),
    }
}

// The low 32 bits of an argument.
pub(crate) fn low(x: u64) -> u32 {
    (x % 4294967296) as u32
}

// Writes all of a run; or a write fails, or takes nothing, when some of it may have been written.
fn write_all<W: Write>(output: &mut W, buf: &[u8]) -> io::Result<()>
    ensures { OnlyAdds (W.contents output.old) (W.contents output.new) }
{
    let mut done = 0;
    // Stays: how far a turn goes is what the write answers, so there is no range to go over; of a failure std's `write_all` does not say that
    // bytes were only added.
    while done < buf.len() {
        let n = output.write(&buf[done..])?;
        if n == 0 {
            return Err(io::Error::from(ErrorKind::WriteZero));
        }
        done += n;
    }
    Ok(())
}

// The lines of one request.
fn respond<W: Write>(bytes: &[u8; 72], out: &mut [u8; 512], output: &mut W) -> io::Result<()>
    ensures { OnlyAdds (W.contents output.old) (W.contents output.new) }
{
    let n = runs::lines_of(read(bytes), out);
    if n <= out.len() {
        write_all(output, &out[..n])?;
    }
    Ok(())
}

// Answers every whole request of the input on the output, each before the next one is read; what it prints is compared. A read or a write that fails
// is the end, and is answered. Fail or not, bytes of the input are only taken from its front, and bytes of the output only added behind it.
pub fn answer_all<R: Read, W: Write>(input: &mut R, output: &mut W) -> io::Result<()>
    ensures input { OnlyTakes (R.remaining input.old) (R.remaining input.new) }
    ensures output { OnlyAdds (W.contents output.old) (W.contents output.new) }
{
    let mut bytes = [0u8; 72];
    let mut out = [0u8; 512];
    for _ in 0..u64::MAX {
        if streams::read_full(input, &mut bytes)? < 72 {
            break;
        }
        respond(&bytes, &mut out, output)?;
    }
    Ok(())
}
