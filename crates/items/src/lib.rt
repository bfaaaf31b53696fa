// Request a of document 02: what one word is to Arm, among the instructions that this port writes: a wide move, a logical immediate, a displacement,
// or unknown.
#![tactic(auto)]

ghost use Rattle.std.specs.Prelude.{◌≡◌, ◌+◌, ◌-◌, ◌*◌, ◌≤◌};
ghost use Rattle.arm.specs.BitMasks.{esize};
ghost use Rattle.items.specs.Items.{item_of};
ghost use Rattle.items.specs.Private.{format_in, displacement_in, logical_in};

use forms::Format;
use wide_moves::WideMove;
use words::{ByteDistance, Opc};

// The formats of displacements, in the order of their numbers.
const FORMATS: [Format; 6] = [
    Format::Branch26,
    Format::Branch19,
    Format::Branch14,
    Format::Adr,
    Format::Adrp,
    Format::Ldr,
];

// A logical immediate: operation 0 AND, 1 ORR, 2 EOR, 3 ANDS; the value at its width; the fields N, S and R that spell it, and the element length. It
// is normal if R is below the element length.
// Stays: operation, width and format are numbers, since `item_words::write_item` takes any item and refuses the numbers that are none; an enum would ask
// more of its callers.
#[derive(Clone, Copy)]
pub struct LogicalWord {
    pub operation: u32,
    pub width: u32,
    pub rn: u32,
    pub rd: u32,
    pub value: u64,
    pub n: u32,
    pub s: u32,
    pub r: u32,
    pub length: u32,
    pub normal: bool,
}

// A displacement: the format, the word with its field empty, and the distance.
#[derive(Clone, Copy)]
pub struct Displacement {
    pub format: u32,
    pub base: Opc,
    pub distance: ByteDistance,
}

// What one word is.
#[derive(Clone, Copy)]
pub enum Item {
    Wide(WideMove),
    Logical(LogicalWord),
    Displaced(Displacement),
    Unknown(Opc),
}

// The format whose form a word has.
fn form_in(w: Opc) -> Option<Format>
    ensures { result ≡ format_in w.0 }
{
    FORMATS.iter().copied().find(|f| f.is_form_of(w))
}

// A displacement, if a word is one.
fn displaced(w: Opc) -> Option<Displacement>
    ensures { result ≡ displacement_in w.0 }
{
    // Wide moves and logical immediates, of which bits 28 to 24 are 10010, have no format's form: they are not asked six times.
    if w.0 / 16777216 % 32 == 18 {
        return None;
    }
    let format = form_in(w)? as u32;
    let distance = displacements::read_disp(w, format).ok()?;
    Some(Displacement {
        format,
        base: displacements::clear_disp(format, w),
        distance,
    })
}

// The element length that N and S tell.
fn length_of(n: u32, s: u32) -> u32
    requires { (n ≤ 1) × (s ≤ 63) × (2 ≤ n * 64 + (63 - s)) }
    ensures { result ≡ esize n s }
{
    1 << (n * 64 + (63 - s)).ilog2()
}

// A logical immediate, if a word is one.
fn logical(w: Opc) -> Option<LogicalWord>
    ensures { result ≡ logical_in w.0 }
{
    let x = w.0;
    if x / 8388608 % 64 != 36 {
        return None;
    }
    let n = x / 4194304 % 2;
    let s = x / 1024 % 64;
    let r = x / 65536 % 64;
    let width = 32 + x / 2147483648 % 2 * 32;
    let value = logical_decoder::decode_logical_imm(n, s, r, width).ok()?;
    let length = length_of(n, s);
    Some(LogicalWord {
        operation: x / 536870912 % 4,
        width,
        rn: x / 32 % 32,
        rd: x % 32,
        value,
        n,
        s,
        r,
        length,
        normal: r < length,
    })
}

// What a word is.
pub fn read_word(w: Opc) -> Item
    ensures { result ≡ item_of w.0 }
{
    if let Some(m) = wide_moves::read_wide(w) {
        return Item::Wide(m);
    }
    if let Some(l) = logical(w) {
        return Item::Logical(l);
    }
    if let Some(d) = displaced(w) {
        return Item::Displaced(d);
    }
    Item::Unknown(w)
}
