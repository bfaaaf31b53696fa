// Request a of document 02: an item of an archive into the bytes of its line, in a lent run of bytes. Lines are put part by part (`lines`).
#![tactic(auto)]

ghost use Rattle.std.specs.Prelude.{◌≡◌, [], ◌∷◌, ◌++◌, ◌+◌, ◌/◌, ◌%◌, ◌^◌};
ghost use Rattle.lines.specs.Parts.{text, number, parts_at};
ghost use Rattle.archive_lines.specs.Lines.{size_of, fewest_of, value_parts, constant_parts, movk_parts, operation_text, fields_parts, logical_parts, displacement_parts, item_parts, body_parts, parts_of, line_at};

use archive_pieces::Told;
use items::{Displacement, Item, LogicalWord};
use reader::Constant;
use wide_moves::WideMove;

// No line has more bytes.
const LONGEST_LINE: usize = 320;

// A text and a number behind it.
fn put_field(out: &mut [u8], at: usize, name: &[u8], n: u64) -> usize
    ensures { (result, out.new) ≡ parts_at (at, out.old) (text name.now ∷ number n ∷ []) }
{
    let p = lines::text(out, at, name);
    lines::number(out, p, n)
}

// A value in sixteen hex digits.
fn put_value(out: &mut [u8], at: usize, v: u64) -> usize
    ensures { (result, out.new) ≡ parts_at (at, out.old) (value_parts v) }
{
    let p = lines::text(out, at, b" value ");
    let q = lines::word(out, p, (v / 4294967296) as u32);
    lines::word(out, q, (v % 4294967296) as u32)
}

// The size that sf tells.
fn size_of(sf: u32) -> u64
    ensures { result ≡ size_of sf }
{
    if sf == 0 { 32 } else { 64 }
}

// How many words a move of the value has; of what cannot be moved, its own.
fn fewest(c: Constant) -> usize
    ensures { result ≡ fewest_of c }
{
    moves::mov_words(c.value, c.rd).map_or(c.count, |w| w.count)
}

// A constant, and whether fewer words would do.
fn put_constant(out: &mut [u8], at: usize, c: Constant) -> usize
    ensures { (result, out.new) ≡ parts_at (at, out.old) (constant_parts c) }
{
    let p = put_field(out, at, b" constant register ", u64::from(c.rd));
    let q = put_field(out, p, b" size ", size_of(c.sf));
    let s = put_value(out, q, c.value);
    let t = put_field(out, s, b" words ", c.count as u64);
    let n = fewest(c);
    if n < c.count {
        put_field(out, t, b" could be ", n as u64)
    } else {
        t
    }
}

// A MOVK that belongs to no constant.
fn put_movk(out: &mut [u8], at: usize, m: WideMove) -> usize
    ensures { (result, out.new) ≡ parts_at (at, out.old) (movk_parts m) }
{
    let p = put_field(out, at, b" movk register ", u64::from(m.rd));
    let q = put_field(out, p, b" size ", size_of(m.sf));
    let s = lines::text(out, q, b" halfword ");
    let t = lines::word(out, s, m.imm16);
    put_field(out, t, b" place ", u64::from(m.hw))
}

// The name of a logical operation.
fn name_of(operation: u32) -> &'static [u8]
    ensures { result.now ≡ operation_text operation }
{
    match operation {
        0 => b" logical and",
        1 => b" logical orr",
        2 => b" logical eor",
        _ => b" logical ands",
    }
}

// The fields of a logical immediate.
fn put_fields(out: &mut [u8], at: usize, l: LogicalWord) -> usize
    ensures { (result, out.new) ≡ parts_at (at, out.old) (fields_parts l) }
{
    let p = put_field(out, at, b" fields ", u64::from(l.n));
    let q = put_field(out, p, b" ", u64::from(l.s));
    let s = put_field(out, q, b" ", u64::from(l.r));
    let t = put_field(out, s, b" length ", u64::from(l.length));
    if l.normal {
        t
    } else {
        lines::text(out, t, b" not normal")
    }
}

// A logical immediate.
fn put_logical(out: &mut [u8], at: usize, l: LogicalWord) -> usize
    ensures { (result, out.new) ≡ parts_at (at, out.old) (logical_parts l) }
{
    let p = lines::text(out, at, name_of(l.operation));
    let q = put_field(out, p, b" width ", u64::from(l.width));
    let s = put_field(out, q, b" rn ", u64::from(l.rn));
    let t = put_field(out, s, b" rd ", u64::from(l.rd));
    let u = put_value(out, t, l.value);
    put_fields(out, u, l)
}

// A displacement, with the sign of its distance.
fn put_displacement(out: &mut [u8], at: usize, d: Displacement) -> usize
    ensures { (result, out.new) ≡ parts_at (at, out.old) (displacement_parts d) }
{
    let p = put_field(out, at, b" displacement format ", u64::from(d.format));
    let q = lines::text(out, p, b" base ");
    let s = lines::word(out, q, d.base.0);
    let distance = d.distance.0;
    let size = distance.unsigned_abs();
    if distance.is_negative() {
        put_field(out, s, b" distance -", size)
    } else {
        put_field(out, s, b" distance ", size)
    }
}

// What one word is.
fn put_item(out: &mut [u8], at: usize, i: Item) -> usize
    ensures { (result, out.new) ≡ parts_at (at, out.old) (item_parts i) }
{
    match i {
        Item::Wide(m) => put_movk(out, at, m),
        Item::Logical(l) => put_logical(out, at, l),
        Item::Displaced(d) => put_displacement(out, at, d),
        Item::Unknown(w) => {
            let p = lines::text(out, at, b" unknown ");
            lines::word(out, p, w.0)
        }
    }
}

// An item with its position.
fn put_told(out: &mut [u8], at: usize, t: Told) -> usize
    ensures { (result, out.new) ≡ parts_at (at, out.old) (body_parts t) }
{
    match t {
        Told::Joined(c, position) => {
            let p = lines::number(out, at, position);
            put_constant(out, p, c)
        }
        Told::Single(i, position) => {
            let p = lines::number(out, at, position);
            put_item(out, p, i)
        }
    }
}

// The line of an item, where there is room for any line; else nothing, and the same place.
pub fn line(t: Told, out: &mut [u8], at: usize) -> usize
    ensures { (result, out.new) ≡ line_at out.old at (parts_of t) }
{
    if out.len().saturating_sub(at) < LONGEST_LINE {
        return at;
    }
    let p = put_told(out, at, t);
    lines::text(out, p, b"\n")
}
