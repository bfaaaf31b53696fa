// Request a of document 02: an archive read in pieces, item by item. A constant whose words reach the end of a piece is carried into the next one.
#![tactic(auto)]

ghost use Rattle.std.specs.Prelude.{◌≡◌};
ghost use Rattle.reader.specs.Found.{found_of, resumed_of};
ghost use Rattle.archive_pieces.specs.Steps.{reached_of, begins_of, goes_on_of, step_of};

use items::Item;
use reader::{Constant, Found};
use words::WordPos;

// An item of the archive, a constant or what one word is, and the position of its first word.
// Stays: `reader::Found` tells both positions in a run and its end, this one a position in the whole archive, which need not fit a run's; one generic
// enum for both would have a parameter and a variant that half of its users never see.
#[derive(Clone, Copy)]
pub enum Told {
    Joined(Constant, u64),
    Single(Item, u64),
}

// A constant whose words reach up to the end of a piece, and the position of its first word: it may go on in the next piece.
#[derive(Clone, Copy)]
pub struct Begun {
    pub constant: Constant,
    pub at: u64,
}

// What comes next: an item, and how many words of the piece it took; or the piece is at its end, and what is carried into the next one.
#[derive(Clone, Copy)]
pub enum Step {
    Tell(Told, usize),
    Carry(Option<Begun>),
}

// A constant whose words stand up to a word of the piece: at the piece's end it may go on.
fn reached(b: Begun, next: usize, end: usize) -> Step
    ensures { result ≡ reached_of b next end }
{
    if next == end {
        Step::Carry(Some(b))
    } else {
        Step::Tell(Told::Joined(b.constant, b.at), next)
    }
}

// The first item of a piece, if there is one.
fn begins(words: &[u32], at: u64) -> Step
    ensures { result ≡ begins_of words.now at (found_of words.now 0) }
{
    match reader::read_at(words, WordPos(0)) {
        Ok(Found::Joined(constant, s)) => reached(Begun { constant, at }, s.next.0, words.len()),
        Ok(Found::Single(i, s)) => Step::Tell(Told::Single(i, at), s.next.0),
        _ => Step::Carry(None),
    }
}

// A constant that was carried into a piece. What is no constant is told as it stands.
fn goes_on(words: &[u32], b: Begun) -> Step
    ensures { result ≡ goes_on_of words.now b (resumed_of words.now b.constant) }
{
    match reader::resume(words, b.constant) {
        Ok(Found::Joined(constant, s)) => reached(Begun { constant, ..b }, s.next.0, words.len()),
        _ => Step::Tell(Told::Joined(b.constant, b.at), 0),
    }
}

// What comes next in a piece whose first word stands at a position of the archive.
#[tactic(auto, unfolding(crate::specs::Steps::step_of))]
pub fn read_on(words: &[u32], at: u64, carried: Option<Begun>) -> Step
    ensures { result ≡ step_of words.now at carried }
{
    match carried {
        None => begins(words, at),
        Some(b) => goes_on(words, b),
    }
}
