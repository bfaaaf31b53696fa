// Module 7, request h of document 02: whether a word is an instruction of a displacement format.
#![tactic(auto)]

ghost use Rattle.std.specs.Prelude.{◌≡◌, eqb};
ghost use Rattle.std.specs.Int.Bits.{bit_and};
ghost use Rattle.forms.specs.Format.{format_number, Numbers};
ghost use Rattle.forms.specs.Form.{is_of_form, form_said};
ghost use Rattle.forms.specs.Private.{fixed_of};
ghost use Rattle.words.specs.Answer.{said};

use words::{Opc, Refusal};

// A displacement format, by its number in document 01.
#[derive(Clone, Copy, Debug, PartialEq, Eq)]
pub enum Format {
    Branch26 = 0,
    Branch19 = 1,
    Branch14 = 2,
    Adr = 3,
    Adrp = 4,
    Ldr = 5,
}

// From 6 on there is no format.
impl TryFrom<u32> for Format {
    type Error = Refusal;

    ghost try_from_gives = { Numbers };

    fn try_from(n: u32) -> Result<Self, Refusal> {
        match n {
            0 => Ok(Format::Branch26),
            1 => Ok(Format::Branch19),
            2 => Ok(Format::Branch14),
            3 => Ok(Format::Adr),
            4 => Ok(Format::Adrp),
            5 => Ok(Format::Ldr),
            _ => Err(Refusal::Unknown),
        }
    }
}

// The fixed bits of a format's instructions: those under one mask, or those under another.
#[derive(Clone, Copy)]
struct Fixed {
    mask: u32,
    bits: u32,
    mask2: u32,
    bits2: u32,
}

// A row of the table below.
fn row(mask: u32, bits: u32, mask2: u32, bits2: u32) -> Fixed
    ensures { result ≡ record { mask = mask; bits = bits; mask2 = mask2; bits2 = bits2 } }
{
    Fixed {
        mask,
        bits,
        mask2,
        bits2,
    }
}

// B and BL; B.cond, and CBZ and CBNZ; TBZ and TBNZ; ADR; ADRP; the literal LDR, LDRSW and PRFM. Where one mask is enough it stands twice: then this
// `match` compiles to loads from tables, with no branch.
fn fixed_of(format: Format) -> Fixed
    ensures { result ≡ fixed_of (format_number format) }
{
    match format {
        Format::Branch26 => row(0x7C00_0000, 0x1400_0000, 0x7C00_0000, 0x1400_0000),
        Format::Branch19 => row(0xFF00_0010, 0x5400_0000, 0x7E00_0000, 0x3400_0000),
        Format::Branch14 => row(0x7E00_0000, 0x3600_0000, 0x7E00_0000, 0x3600_0000),
        Format::Adr => row(0x9F00_0000, 0x1000_0000, 0x9F00_0000, 0x1000_0000),
        Format::Adrp => row(0x9F00_0000, 0x9000_0000, 0x9F00_0000, 0x9000_0000),
        Format::Ldr => row(0x3B00_0000, 0x1800_0000, 0x3B00_0000, 0x1800_0000),
    }
}

// Whether the bits of a word under a mask are these.
fn under(w: Opc, mask: u32, bits: u32) -> bool
    ensures { result ≡ eqb (bit_and w.0 mask) bits }
{
    w.0 & mask == bits
}

impl Format {
    // Whether a word has the fixed bits of one of the format's instructions.
    pub fn is_form_of(self, w: Opc) -> bool
        ensures { result ≡ is_of_form (format_number self) w.0 }
    {
        let f = fixed_of(self);
        // The literals that Arm leaves unallocated are of no format.
        if under(w, 0xFF00_0000, 0xDC00_0000) {
            return false;
        }
        under(w, f.mask, f.bits) || under(w, f.mask2, f.bits2)
    }
}

// The same by the format's number, where a format that there is not is told: 7.
pub fn has_form(format: u32, word: Opc) -> Result<bool, Refusal>
    ensures { said result ≡ form_said format word.0 }
{
    Ok(Format::try_from(format)?.is_form_of(word))
}

// The same as yes or no alone: no word is of the form of a format that there is not.
pub fn of_form(format: u32, w: Opc) -> bool
    ensures { result ≡ is_of_form format w.0 }
{
    has_form(format, w).unwrap_or(false)
}
