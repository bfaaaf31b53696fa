// An answer by value into the bytes of its line, in a lent run of bytes. Each entry tests the room: for the longest line, or for a part of a line of
// another program. The writers of a cursor test nothing, and each says which bytes it put.
#![tactic(auto)]

ghost use Rattle.std.specs.Prelude.{◌≡◌, [], ◌∷◌, ◌++◌, ◌+◌, ◌≤◌, ◌<◌, leb, length};
ghost use Rattle.words.specs.Listed.{list_of};
ghost use Rattle.lines.specs.Item.{items_of};
ghost use Rattle.lines.specs.Text.{digit, hex4, hex8, decimal, spaced, ok_text, line_end, texts_of, line_at};
ghost use Rattle.lines.specs.Steps.{Put, Room, Wrote, spell, part};
ghost use Rattle.lines.specs.Parts.{text, number, word, part_at};

use words::{Refusal, Words};

// What a line says; nothing has no line.
#[derive(Clone, Copy)]
pub enum Answer {
    Nothing,
    Words(Words),
    Numbers(Words),
    No(Refusal),
    BadMark(u64),
    Cut(u64),
}

// A digit below 16, with no branch.
fn hex_digit(d: u32) -> u8
    requires { d < 16 }
    ensures { result ≡ digit d }
{
    (48 + d + d / 10 * 39) as u8
}

// A byte at a place of a run, and the place past it.
fn put_byte(out: &mut [u8], at: usize, b: u8) -> usize
    requires { at < length out.old }
    ensures { Put 1 out.old at (b ∷ []) result out.new }
{
    out[at] = b;
    at + 1
}

// A number in decimal at a place of a run, and the place past it.
// Stays by value: a cursor that is lent to a function which calls itself stands in memory, and then every byte of a line is dearer.
fn put_decimal(out: &mut [u8], at: usize, n: u64) -> usize
    requires { at + 20 ≤ length out.old }
    ensures { Put 20 out.old at (decimal n) result out.new }
{
    if n < 10 {
        return put_byte(out, at, b'0' + n as u8);
    }
    let p = put_decimal(out, at, n / 10);
    put_byte(out, p, b'0' + (n % 10) as u8)
}

// How the numbers of a list are spelt: as words, or in decimal.
#[derive(Clone, Copy)]
enum Spelling {
    Hex,
    Decimal,
}

// A place in a lent run of bytes: what is put stands there, and the place moves past it.
#[derive(Drop)]
struct Cursor<'a> {
    out: &'a mut [u8],
    at: usize,
}

impl<'a> Cursor<'a> {
    #[inline(always)]
    fn byte(&mut self, b: u8)
        requires { Room 1 self.old }
        ensures { Wrote 1 self.old (b ∷ []) self.new }
    {
        self.at = put_byte(self.out, self.at, b);
    }

    // The low four hex digits.
    #[inline(always)]
    fn half(&mut self, w: u32)
        requires { Room 4 self.old }
        ensures { Wrote 4 self.old (hex4 w) self.new }
    {
        self.byte(hex_digit(w / 4096 % 16));
        self.byte(hex_digit(w / 256 % 16));
        self.byte(hex_digit(w / 16 % 16));
        self.byte(hex_digit(w % 16));
    }

    #[inline(always)]
    fn word(&mut self, w: u32)
        requires { Room 8 self.old }
        ensures { Wrote 8 self.old (hex8 w) self.new }
    {
        self.half(w / 65536);
        self.half(w);
    }

    #[inline(always)]
    fn decimal(&mut self, n: u64)
        requires { Room 20 self.old }
        ensures { Wrote 20 self.old (decimal n) self.new }
    {
        self.at = put_decimal(self.out, self.at, n);
    }

    #[inline(always)]
    fn text(&mut self, text: &[u8])
        requires { Room (length text.now) self.old }
        ensures { Wrote (length text.now) self.old text.now self.new }
    {
        let end = self.at + text.len();
        self.out[self.at..end].copy_from_slice(text);
        self.at = end;
    }

    // A space and a number of a list, if the list goes so far.
    #[inline(always)]
    fn part(&mut self, spelling: Spelling, there: bool, n: u32)
        requires { Room 21 self.old }
        ensures { Wrote 21 self.old (part (spell spelling) there n) self.new }
    {
        if there {
            self.byte(b' ');
            match spelling {
                Spelling::Hex => self.word(n),
                Spelling::Decimal => self.decimal(u64::from(n)),
            }
        }
    }

    // Stays: four lines, since a loop goes over an array of the four, which is loaded whole where they were just stored one by one; every line waits for that.
    #[inline(always)]
    fn parts(&mut self, spelling: Spelling, f: Words)
        requires { Room 84 self.old }
        ensures { Wrote 84 self.old (spaced (spell spelling) (list_of f)) self.new }
    {
        self.part(spelling, f.count > 0, f.a);
        self.part(spelling, f.count > 1, f.b);
        self.part(spelling, f.count > 2, f.c);
        self.part(spelling, f.count > 3, f.d);
    }

    // `ok`, a list and the line's end.
    #[inline(always)]
    fn ok(&mut self, spelling: Spelling, f: Words)
        requires { Room 87 self.old }
        ensures { Wrote 87 self.old (ok_text ++ (spaced (spell spelling) (list_of f) ++ line_end)) self.new }
    {
        self.text(b"ok");
        self.parts(spelling, f);
        self.byte(b'\n');
    }

    // A text, a space and a number, and the line's end.
    #[inline(always)]
    fn about(&mut self, text: &[u8], n: u64)
        requires { Room 34 self.old × (length text.now ≤ 12) }
        ensures { Wrote 34 self.old (text.now ++ ((32 ∷ decimal n) ++ line_end)) self.new }
    {
        self.text(text);
        self.byte(b' ');
        self.decimal(n);
        self.byte(b'\n');
    }

    fn line(&mut self, a: Answer)
        requires { Room 96 self.old }
        ensures { Wrote 96 self.old (texts_of (items_of a)) self.new }
    {
        match a {
            Answer::Nothing => {}
            Answer::Words(f) => self.ok(Spelling::Hex, f),
            Answer::Numbers(f) => self.ok(Spelling::Decimal, f),
            Answer::No(r) => self.about(b"no", u64::from(words::number(r))),
            Answer::BadMark(o) => self.about(b"bad mark at", o),
            Answer::Cut(o) => self.about(b"cut at", o),
        }
    }
}

// Whether a run of so many bytes has room for so many from a place on.
fn has_room(room: usize, at: usize, most: usize) -> bool
    ensures { result ≡ leb (at + most) room }
{
    room.checked_sub(at).is_some_and(|left| most <= left)
}

// The line of an answer, where there is room for any line; else nothing, and the same place.
pub fn line(a: Answer, out: &mut [u8], at: usize) -> usize
    ensures { (result, out.new) ≡ line_at out.old at (items_of a) }
{
    if !has_room(out.len(), at, 96) {
        return at;
    }
    let mut c = Cursor { out, at };
    c.line(a);
    c.at
}

// A text, a part of a line, where there is room for it; else nothing, and the same place.
pub fn text(out: &mut [u8], at: usize, t: &[u8]) -> usize
    ensures { (result, out.new) ≡ part_at out.old at (text t.now) }
{
    if !has_room(out.len(), at, t.len()) {
        return at;
    }
    let mut c = Cursor { out, at };
    c.text(t);
    c.at
}

// A number in decimal, where there is room for any; else nothing, and the same place.
pub fn number(out: &mut [u8], at: usize, n: u64) -> usize
    ensures { (result, out.new) ≡ part_at out.old at (number n) }
{
    if !has_room(out.len(), at, 20) {
        return at;
    }
    let mut c = Cursor { out, at };
    c.decimal(n);
    c.at
}

// A word in eight hex digits, where there is room for them; else nothing, and the same place.
pub fn word(out: &mut [u8], at: usize, w: u32) -> usize
    ensures { (result, out.new) ≡ part_at out.old at (word w) }
{
    if !has_room(out.len(), at, 8) {
        return at;
    }
    let mut c = Cursor { out, at };
    c.word(w);
    c.at
}
