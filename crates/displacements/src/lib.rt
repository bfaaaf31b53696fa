// Module 7: a signed distance in bytes in the field of a branch, an ADR, an ADRP or an LDR literal, and back.
#![tactic(auto)]

ghost use Rattle.std.specs.Prelude.{◌≡◌, ◌^◌, ◌<◌};
ghost use Rattle.words.specs.Answer.{said};
ghost use Rattle.forms.specs.Format.{format_number};
ghost use Rattle.words.specs.Listed.{packed};
ghost use Rattle.writers.specs.Put.{put_of};
ghost use Rattle.displacements.specs.Forms.{form_of, field_in, put_in, clear_in};
ghost use Rattle.displacements.specs.Answer.{place_said, disp_said, read_said, distance_said};
ghost use Rattle.displacements.specs.Private.{offset_in, Sound};

use forms::Format;
use words::{ByteDistance, Opc, Place, Refusal, Words};

// A format: distances in steps of 2 ^ scale bytes, in a field of `bits` bits, of which the low ones, `low` in number, stand at bit 29 of the
// word and the rest at bit `at`.
#[derive(Clone, Copy)]
struct Form {
    scale: u32,
    bits: u32,
    low: u32,
    at: u32,
    ghost sound: { Sound (record { scale = scale; bits = bits; low = low; at = at }) },
}

// A row of the table below.
fn row(scale: u32, bits: u32, low: u32, at: u32) -> Form
    requires { Sound (record { scale = scale; bits = bits; low = low; at = at }) }
    ensures { (result.scale ≡ scale) × (result.bits ≡ bits) × (result.low ≡ low) × (result.at ≡ at) }
{
    Form {
        scale,
        bits,
        low,
        at,
    }
}

impl Form {
    ghost use Rattle.displacements.specs.Shape.{shape};

    // The six formats. As a `match` it compiles to loads from tables, with no branch.
    fn of(format: Format) -> Self
        ensures { shape result ≡ form_of (format_number format) }
    {
        match format {
            Format::Branch26 => row(2, 26, 0, 0),
            Format::Branch19 => row(2, 19, 0, 5),
            Format::Branch14 => row(2, 14, 0, 5),
            Format::Adr => row(0, 21, 2, 5),
            Format::Adrp => row(12, 21, 2, 5),
            Format::Ldr => row(2, 19, 0, 5),
        }
    }

    // The field of a word, its low bits and the rest put together.
    fn field_of(self, w: Opc) -> u64
        ensures { result ≡ field_in (shape self) w.0 }
    {
        let x = u64::from(w.0);
        (words::low_bits(x >> self.at, self.bits - self.low) << self.low)
            + words::low_bits(x >> 29, self.low)
    }

    // The base, whose field is clear, with v in the field.
    fn put_field(self, base: Opc, v: u64) -> Opc
        requires { (field_in (shape self) base.0 ≡ 0) × (v < 2 ^ self.bits) }
        ensures { result.0 ≡ put_in (shape self) base.0 v }
    {
        let b = u64::from(base.0);
        let w = (b + ((v >> self.low) << self.at) + (words::low_bits(v, self.low) << 29)) as u32;
        Opc(w)
    }

    // A word with its field clear.
    fn clear_field(self, w: Opc) -> Opc
        ensures { result.0 ≡ clear_in (shape self) w.0 }
    {
        let held = self.put_field(Opc(0), self.field_of(w));
        Opc(w.0 - held.0)
    }

    // The word of a base and a distance: 6, 4, 5.
    fn place(self, base: Opc, distance: ByteDistance) -> Result<Words, Refusal>
        ensures { said result ≡ packed (place_said (shape self) base.0 distance.0) }
    {
        let x = words::bits_of(distance.0);
        let width = self.bits + self.scale;
        if self.field_of(base) != 0 {
            return Err(Refusal::Taken);
        }
        if words::low_bits(x, self.scale) != 0 {
            return Err(Refusal::Step);
        }
        // From the least distance on: one comparison for both ends.
        if x.wrapping_add(1 << (width - 1)) >> width != 0 {
            return Err(Refusal::Range);
        }
        let w = self.put_field(base, words::low_bits(x >> self.scale, self.bits));
        Ok(words::one(w.0))
    }

    // The field, times the step, with its top bit copied up to bit 63.
    fn offset_of(self, w: Opc) -> u64
        ensures { result ≡ offset_in (shape self) w.0 }
    {
        let width = self.bits + self.scale;
        let v = self.field_of(w) << self.scale;
        if v >> (width - 1) == 0 {
            v
        } else {
            !((1 << width) - 1 - v)
        }
    }
}

// A word with the field of a format clear. From 6 on there is none, and no field.
pub fn clear_disp(format: u32, word: Opc) -> Opc
    ensures { result.0 ≡ clear_in (form_of format) word.0 }
{
    Format::try_from(format).map_or(word, |f| Form::of(f).clear_field(word))
}

// The word of a base and a distance, by value: 7, 11, 6, 4, 5.
pub fn disp_word(format: u32, base: Opc, distance: ByteDistance) -> Result<Words, Refusal>
    ensures { said result ≡ packed (disp_said format base.0 distance.0) }
{
    let format = Format::try_from(format)?;
    if !format.is_form_of(base) {
        return Err(Refusal::WrongForm);
    }
    Form::of(format).place(base, distance)
}

// The word of a base and a distance at a place: 15, 7, 11, 6, 4, 5, 8.
pub fn emit_disp_imm(
    words: &mut [u32],
    at: Place,
    format: u32,
    base: Opc,
    distance: ByteDistance,
) -> Result<Place, Refusal>
    ensures { (said result, words.new) ≡ put_of words.old at (disp_said format base.0 distance.0) }
{
    writers::put(words, at, disp_word(format, base, distance))
}

// The distance of any word, of the format's form or not: 7.
pub fn read_disp(word: Opc, format: u32) -> Result<ByteDistance, Refusal>
    ensures { distance_said result ≡ read_said word.0 format }
{
    let offset = Form::of(Format::try_from(format)?).offset_of(word);
    Ok(ByteDistance(words::signed_of(offset)))
}
