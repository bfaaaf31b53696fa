// The scripts of stdin, calls on labels one after the other, which the oracle's model answered: stdout is what it said. The table, the sheet in three
// runs and the run of words are made here. A call is 40 bytes, five numbers of 8 bytes, low byte first: its kind, the base, the label, the position
// and the format.
#![tactic(auto)]

ghost use Rattle.std.specs.Prelude.{◌≤◌};

use std::io;
use words::{Address, Place, Refusal, WordPos};

// So many entries has the table at most, so many uses the sheet, and so many words the run.
const ENTRIES: usize = 300;

const USES: usize = 1100;

const WORDS: usize = 2048;

// A call: all is made anew, with so many entries, uses and words; a word is put into the run; a label is bound, or used by the word at a place, at a
// format; all that waits is finished.
#[derive(Clone, Copy)]
enum Call {
    Anew {
        entries: usize,
        uses: usize,
        words: usize,
    },
    Put {
        word: u32,
        i: usize,
    },
    Bind {
        label: u32,
        at: Place,
    },
    Use {
        label: u32,
        at: Place,
        format: u32,
    },
    Finish {
        at: Place,
    },
}

// The low 32 bits of a number.
fn low(x: u64) -> u32 {
    (x % 4294967296) as u32
}

// The call of five numbers, if there is one of that kind.
fn read(numbers: [u64; 5]) -> Option<Call> {
    let [kind, base, label, position, format] = numbers;
    let at = Place {
        base: Address(base),
        position: WordPos(position as usize),
    };
    match kind {
        0 => Some(Call::Anew {
            entries: label as usize,
            uses: position as usize,
            words: format as usize,
        }),
        1 => Some(Call::Put {
            word: low(label),
            i: position as usize,
        }),
        2 => Some(Call::Bind {
            label: low(label),
            at,
        }),
        3 => Some(Call::Use {
            label: low(label),
            at,
            format: low(format),
        }),
        4 => Some(Call::Finish { at }),
        _ => None,
    }
}

// The numbers of a run, the first once, the second twice, and so on: their sum modulo 2^64, from the last one on.
fn sum<T, F: Fn(&T) -> u64>(run: &[T], number: F) -> u64
    requires { F.IsAlwaysCallable number }
{
    let mut rest = 0u64;
    let mut all = 0u64;
    for x in run.iter().rev() {
        rest = rest.wrapping_add(number(x));
        all = all.wrapping_add(rest);
    }
    all
}

fn word_sum(run: &[u32]) -> u64 {
    sum(run, |x| u64::from(*x))
}

fn position_sum(run: &[usize]) -> u64 {
    sum(run, |x| *x as u64)
}

// So many entries of the table, uses of the sheet and words of the run are lent.
#[derive(Clone, Copy)]
struct Lent {
    entries: usize,
    uses: usize,
    words: usize,
    ghost in_bounds: { (entries ≤ 300) × (uses ≤ 1100) × (words ≤ 2048) },
}

// The table, the sheet in three runs, and the words; what is lent of them, and how many uses wait.
// Stays: three runs side by side, since this program is to show `label_runs`.
#[derive(Drop)]
struct Desk {
    labels: [usize; ENTRIES],
    marks: [u32; USES],
    ats: [usize; USES],
    formats: [u32; USES],
    words: [u32; WORDS],
    lent: Lent,
    waiting: usize,
}

impl Desk {
    // All is 0, and so much is lent, or all that there is.
    fn new(entries: usize, uses: usize, words: usize) -> Self {
        Desk {
            labels: [0; ENTRIES],
            marks: [0; USES],
            ats: [0; USES],
            formats: [0; USES],
            words: [0; WORDS],
            lent: Lent {
                entries: entries.min(ENTRIES),
                uses: uses.min(USES),
                words: words.min(WORDS),
            },
            waiting: 0,
        }
    }

    // A word into the run, if its place is inside.
    fn put(&mut self, word: u32, i: usize) {
        if i < self.lent.words {
            self.words[i] = word;
        }
    }

    fn bind(&mut self, label: u32, at: Place) -> Result<(), Refusal> {
        let lent = self.lent;
        let labels = &mut self.labels[..];
        labels::bind(
            &mut labels[..lent.entries],
            &self.words[..lent.words],
            label,
            at,
        )
    }

    fn add(&mut self, label: u32, at: Place, format: u32) -> Result<usize, Refusal> {
        let lent = self.lent;
        let marks = &mut self.marks[..];
        let ats = &mut self.ats[..];
        let formats = &mut self.formats[..];
        self.waiting = label_runs::use_flat(
            &mut marks[..lent.uses],
            &mut ats[..lent.uses],
            &mut formats[..lent.uses],
            self.waiting,
            &self.labels[..lent.entries],
            &self.words[..lent.words],
            label,
            at,
            format,
        )?;
        Ok(self.waiting)
    }

    fn finish(&mut self, at: Place) -> Result<usize, Refusal> {
        let lent = self.lent;
        let words = &mut self.words[..];
        self.waiting = label_runs::finish_flat(
            &self.marks[..lent.uses],
            &self.ats[..lent.uses],
            &self.formats[..lent.uses],
            self.waiting,
            &self.labels[..lent.entries],
            &mut words[..lent.words],
            at,
        )?;
        Ok(self.waiting)
    }

    // A call is answered: by the count of uses that wait after a use or a finish, else by 0.
    fn answer(&mut self, call: Call) -> Result<usize, Refusal> {
        match call {
            Call::Anew {
                entries,
                uses,
                words,
            } => {
                *self = Desk::new(entries, uses, words);
                Ok(0)
            }
            Call::Put { word, i } => {
                self.put(word, i);
                Ok(0)
            }
            Call::Bind { label, at } => self.bind(label, at).map(|()| 0),
            Call::Use { label, at, format } => self.add(label, at, format),
            Call::Finish { at } => self.finish(at),
        }
    }

    // The sums of the words, of the table and of the first uses of the sheet.
    fn say_sums(&self, rt: &impl Print, uses: usize) -> io::Result<()> {
        let n = uses.min(USES);
        let sums = [
            word_sum(&self.words[..self.lent.words]),
            position_sum(&self.labels[..self.lent.entries]),
            word_sum(&self.marks[..n]),
            position_sum(&self.ats[..n]),
            word_sum(&self.formats[..n]),
        ];
        for s in sums {
            println!(rt; "sum {s}")?;
        }
        Ok(())
    }

    // What a call answers is said; after a finish the sums, too, with the uses that waited before it.
    fn say(&mut self, rt: &impl Print, call: Call) -> io::Result<()> {
        let waited = self.waiting;
        match self.answer(call) {
            Ok(n) => println!(rt; "ok {n}")?,
            Err(r) => println!(rt; "{r}")?,
        }
        if matches!(call, Call::Finish { .. }) {
            self.say_sums(rt, waited)?;
        }
        Ok(())
    }
}

// Every whole call of standard input is answered on standard output. A read or a write that fails is the end.
fn main(rt: HostRuntime) -> io::Result<()> {
    let mut input = rt.stdin();
    let mut bytes = [[0u8; 8]; 5];
    let mut desk = Desk::new(0, 0, 0);
    for _ in 0..u64::MAX {
        if streams::read_full(&mut input, bytes.as_flattened_mut())? < 40 {
            break;
        }
        match read(bytes.map(u64::from_le_bytes)) {
            Some(call) => desk.say(&rt, call)?,
            None => println!(rt; "bad")?,
        }
    }
    Ok(())
}
