// An overlay's loop with labels that are bound late, over a sheet in three runs: an exit forward, a branch back, all six formats, and between them
// calls that are refused. A line for each call, then the words in hex. As a program at the base it ends with 35: the data at the odd counts 5, 3 and
// 1, and twice more, each time reached another way.
#![tactic(auto)]

use std::io;
use words::{Address, Place, Refusal, WordPos};

// The words with no distance in them yet, but for one.
const WORDS: [u32; 19] = [
    0xD28000A0, //  0        movz x0, #5
    0x18000001, //  1        ldr w1, data
    0x10000002, //  2        adr x2, data
    0x90000003, //  3        adrp x3, data
    0xD2800004, //  4        movz x4, #0
    0x14000001, //  5        b loop: it has its distance
    0xB4000000, //  6 loop:  cbz x0, exit
    0x36000000, //  7        tbz w0, #0, even
    0x8B010084, //  8        add x4, x4, x1
    0xD1000400, //  9 even:  sub x0, x0, #1
    0x14000000, // 10        b loop
    0xB9400045, // 11 exit:  ldr w5, [x2]
    0x8B050084, // 12        add x4, x4, x5
    0xB9403865, // 13        ldr w5, [x3, #:lo12:data]
    0x8B050080, // 14        add x0, x4, x5
    0xD2800BA8, // 15        movz x8, #93: the call that ends a program
    0xD4000001, // 16        svc #0
    0x14000000, // 17        b .
    0x00000007, // 18 data:  .word 7
];

// Its first word stands before the end of a page, its data in the next page.
const BASE: u64 = 0x400FF0;

// The labels.
const LOOP: u32 = 0;

const EXIT: u32 = 1;

const EVEN: u32 = 2;

const DATA: u32 = 3;

const STAY: u32 = 4;

// A call, with the base: a label is bound to a position, or used by the word at a position, at a format; or all that waits is finished. The parts have no
// names, so that the table below has a line for each call.
#[derive(Clone, Copy)]
enum Call {
    Bind(u64, u32, usize),
    Use(u64, u32, usize, u32),
    Finish(u64),
}

const CALLS: [Call; 29] = [
    Call::Use(BASE, EXIT, 6, 1),
    Call::Use(BASE, EVEN, 7, 2),
    Call::Use(BASE + 2, LOOP, 10, 0), // refused 15: the base is no multiple of 4
    Call::Use(BASE, LOOP, 10, 6), // 7: there is no such format
    Call::Use(BASE, 5, 10, 0), // 12: the table has no such label
    Call::Use(BASE, LOOP, 19, 0), // 8: past the last word
    Call::Use(BASE, LOOP, 8, 0), // 11: an ADD
    Call::Use(BASE, LOOP, 5, 0), // 6: it has its distance
    Call::Use(BASE, LOOP, 6, 1), // 16: the word waits already
    Call::Bind(BASE, LOOP, 6),
    Call::Bind(BASE + 2, EXIT, 11), // 15
    Call::Bind(BASE, 5, 11), // 12
    Call::Bind(BASE, LOOP, 7), // 13: bound already
    Call::Bind(BASE, EXIT, 20), // 8: past the end
    Call::Bind(BASE, EXIT, 11),
    Call::Use(BASE, LOOP, 10, 0),
    Call::Use(BASE, DATA, 1, 5),
    Call::Use(BASE, DATA, 2, 3),
    Call::Use(BASE, DATA, 3, 4),
    Call::Use(BASE, STAY, 17, 0), // 14: the sheet is full
    Call::Bind(BASE, EVEN, 9),
    Call::Finish(BASE + 2), // 15
    Call::Finish(BASE), // 12: the data is not bound
    Call::Bind(BASE, DATA, 18),
    Call::Finish(BASE),
    Call::Use(BASE, LOOP, 10, 0), // 6: it has its distance now
    Call::Use(BASE, STAY, 17, 0), // there is room again
    Call::Bind(BASE, STAY, 17),
    Call::Finish(BASE),
];

// The table, the sheet in three runs, the words, and how many uses wait.
// Stays: three runs side by side, since this program is to show `label_runs`.
#[derive(Drop)]
struct Desk {
    labels: [usize; 5],
    marks: [u32; 6],
    ats: [usize; 6],
    formats: [u32; 6],
    words: [u32; 19],
    waiting: usize,
}

fn place(base: u64, position: usize) -> Place {
    Place {
        base: Address(base),
        position: WordPos(position),
    }
}

impl Desk {
    fn bind(&mut self, label: u32, at: Place) -> Result<usize, Refusal> {
        labels::bind(&mut self.labels, &self.words, label, at)?;
        Ok(0)
    }

    fn add(&mut self, label: u32, at: Place, format: u32) -> Result<usize, Refusal> {
        self.waiting = label_runs::use_flat(
            &mut self.marks,
            &mut self.ats,
            &mut self.formats,
            self.waiting,
            &self.labels,
            &self.words,
            label,
            at,
            format,
        )?;
        Ok(self.waiting)
    }

    fn finish(&mut self, at: Place) -> Result<usize, Refusal> {
        self.waiting = label_runs::finish_flat(
            &self.marks,
            &self.ats,
            &self.formats,
            self.waiting,
            &self.labels,
            &mut self.words,
            at,
        )?;
        Ok(self.waiting)
    }

    // A call is made: 0 of a bind, else the count of uses that wait after it.
    fn answer(&mut self, call: Call) -> Result<usize, Refusal> {
        match call {
            Call::Bind(base, label, position) => self.bind(label, place(base, position)),
            Call::Use(base, label, position, format) => {
                self.add(label, place(base, position), format)
            }
            Call::Finish(base) => self.finish(place(base, 0)),
        }
    }
}

// A write that fails is the end.
fn main(rt: HostRuntime) -> io::Result<()> {
    let mut desk = Desk {
        labels: [0; 5],
        marks: [0; 6],
        ats: [0; 6],
        formats: [0; 6],
        words: WORDS,
        waiting: 0,
    };
    for call in CALLS {
        match desk.answer(call) {
            Ok(n) => println!(rt; "ok {n}")?,
            Err(r) => println!(rt; "{r}")?,
        }
    }
    for w in desk.words {
        println!(rt; "{w:08x}")?;
    }
    Ok(())
}
