// The entries for the tool's host that read words back, in the manner of the crate `host`. The value of an answer is the kind of what was read, and its
// numbers are written into a lent run of numbers, from the first on.
#![tactic(auto)]

ghost use Rattle.std.specs.Prelude.{◌≡◌, Ok};
ghost use Rattle.host_reader.specs.Numbers.{host_found, host_read};

use items::{Displacement, Item, LogicalWord};
use reader::{Constant, Found, Span};
use wide_moves::WideMove;
use words::{Opc, Refusal, WordPos};

// The most numbers that an item has.
const ROOM: usize = 11;

// Stays, here and below: a kind is a number, and its 256-fold is answered, since C reads it.
// A constant, kind 1: next, register, size, value, words.
fn constant(numbers: &mut [u64; ROOM], c: Constant, s: Span) -> u64
    ensures { (result, numbers.new) ≡ host_found numbers.old (Ok (Found.Joined c s)) }
{
    numbers[0] = s.next.0 as u64;
    numbers[1] = u64::from(c.rd);
    numbers[2] = 32 + u64::from(c.sf) * 32;
    numbers[3] = c.value;
    numbers[4] = c.count as u64;
    256
}

// A lone MOVK, kind 2: next, register, size, halfword, place.
fn movk(numbers: &mut [u64; ROOM], m: WideMove, s: Span) -> u64
    ensures { (result, numbers.new) ≡ host_found numbers.old (Ok (Found.Single (Item.Wide m) s)) }
{
    numbers[0] = s.next.0 as u64;
    numbers[1] = u64::from(m.rd);
    numbers[2] = 32 + u64::from(m.sf) * 32;
    numbers[3] = u64::from(m.imm16);
    numbers[4] = u64::from(m.hw);
    512
}

// A logical immediate, kind 3: next, operation, width, rn, rd, value, N, S, R, element length, normal.
fn logical(numbers: &mut [u64; ROOM], l: LogicalWord, s: Span) -> u64
    ensures { (result, numbers.new) ≡ host_found numbers.old (Ok (Found.Single (Item.Logical l) s)) }
{
    numbers[0] = s.next.0 as u64;
    numbers[1] = u64::from(l.operation);
    numbers[2] = u64::from(l.width);
    numbers[3] = u64::from(l.rn);
    numbers[4] = u64::from(l.rd);
    numbers[5] = l.value;
    numbers[6] = u64::from(l.n);
    numbers[7] = u64::from(l.s);
    numbers[8] = u64::from(l.r);
    numbers[9] = u64::from(l.length);
    numbers[10] = u64::from(l.normal);
    768
}

// A displacement, kind 4: next, format, base, distance.
fn displaced(numbers: &mut [u64; ROOM], d: Displacement, s: Span) -> u64
    ensures { (result, numbers.new) ≡ host_found numbers.old (Ok (Found.Single (Item.Displaced d) s)) }
{
    numbers[0] = s.next.0 as u64;
    numbers[1] = u64::from(d.format);
    numbers[2] = u64::from(d.base.0);
    numbers[3] = words::bits_of(d.distance.0);
    1024
}

// An unknown word, kind 5: next, word, position.
fn unknown(numbers: &mut [u64; ROOM], w: Opc, s: Span) -> u64
    ensures { (result, numbers.new) ≡ host_found numbers.old (Ok (Found.Single (Item.Unknown w) s)) }
{
    numbers[0] = s.next.0 as u64;
    numbers[1] = u64::from(w.0);
    numbers[2] = s.at.0 as u64;
    1280
}

// An item of one word.
fn single(numbers: &mut [u64; ROOM], item: Item, s: Span) -> u64
    ensures { (result, numbers.new) ≡ host_found numbers.old (Ok (Found.Single item s)) }
{
    match item {
        Item::Wide(m) => movk(numbers, m, s),
        Item::Logical(l) => logical(numbers, l, s),
        Item::Displaced(d) => displaced(numbers, d, s),
        Item::Unknown(w) => unknown(numbers, w, s),
    }
}

// What stands at a position of a run of words, kind 0 being its end: 8.
pub fn vaimalofo_read(words: &[u32], position: usize, numbers: &mut [u64]) -> u64
    ensures { (result, numbers.new) ≡ host_read words.now position numbers.old }
{
    let Some(numbers) = numbers.first_chunk_mut::<ROOM>() else {
        return host::refused(Refusal::NoRoom);
    };
    match reader::read_at(words, WordPos(position)) {
        Ok(Found::Joined(c, s)) => constant(numbers, c, s),
        Ok(Found::Single(item, s)) => single(numbers, item, s),
        Ok(Found::End) => 0,
        Err(r) => host::refused(r),
    }
}
