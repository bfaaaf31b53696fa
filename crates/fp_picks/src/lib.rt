// Module 9: the opcode word of a floating-point instruction, scalar or vector, at the size of its registers or elements.
#![tactic(auto)]

ghost use Rattle.std.specs.Prelude.{◌≡◌, ◌<◌, ◌-◌, ◌^◌, ◌==◌, bit_or, cond, nat_lt};
ghost use Rattle.words.specs.declared.Refusal.TheVariants.{Unknown, NoField};
ghost use Rattle.simd.specs.Kinds.{Vec16, Vec64, Vec128, H, D, within, kind_number, element_number};
ghost use Rattle.fp_picks.specs.Pick.{pick_said, row_at, word_in, scalar_of, vector_of, pick_of};

use simd::{Element, Kind};
use words::{Opc, Refusal};

// The word, and the size: 0 H, 1 S, 2 D.
#[derive(Clone, Copy)]
pub struct Picked {
    pub word: Opc,
    pub size: u32,
}

// A row: the sizes that it has, H 1, S 2, D 4, and the word of each.
// Stays: the definitions row_at and word_in and the theorem zero_at_vec128 speak of the sizes so, as the document's rows do.
#[derive(Clone, Copy)]
struct FpRow {
    sizes: u32,
    xor: [u32; 3],
}

const FP_ROWS: [FpRow; 6] = [
    FpRow {
        sizes: 6,
        xor: [0, 0, 0x400000],
    },
    FpRow {
        sizes: 7,
        xor: [0, 0, 0],
    },
    FpRow {
        sizes: 7,
        xor: [0xC00000, 0, 0x400000],
    },
    FpRow {
        sizes: 7,
        xor: [0x580000, 0, 0],
    },
    FpRow {
        sizes: 7,
        xor: [0x60C000, 0, 0x400000],
    },
    FpRow {
        sizes: 7,
        xor: [0x800000, 0, 0x400000],
    },
];

// One table of rows for scalar and vector.
fn fp_row(row: u32) -> Result<FpRow, Refusal>
    ensures { result ≡ cond (nat_lt 5 row) (Err Unknown) (Ok (row_at row)) }
{
    let found = FP_ROWS.get(row as usize);
    found.copied().ok_or(Refusal::Unknown)
}

// The size that a scalar register's kind gives.
fn scalar_size(kind: Kind) -> Result<u32, Refusal>
    ensures { result ≡ cond (within Vec16 Vec64 (kind_number kind)) (Ok (kind_number kind - Vec16)) (Err NoField) }
{
    match kind {
        Kind::Vec16 => Ok(0),
        Kind::Vec32 => Ok(1),
        Kind::Vec64 => Ok(2),
        _ => Err(Refusal::NoField),
    }
}

// The size that an element gives.
fn element_size(element: Element) -> Result<u32, Refusal>
    ensures { result ≡ cond (within H D (element_number element)) (Ok (element_number element - H)) (Err NoField) }
{
    match element {
        Element::H => Ok(0),
        Element::S => Ok(1),
        Element::D => Ok(2),
        _ => Err(Refusal::NoField),
    }
}

// The base with bit 30, which a vector register's kind gives.
fn with_bit_30(kind: Kind, base: u32) -> Result<u32, Refusal>
    ensures { result ≡ cond (within Vec64 Vec128 (kind_number kind)) (Ok (cond (kind_number kind == Vec128) (bit_or base (2 ^ 30)) base)) (Err NoField) }
{
    match kind {
        Kind::Vec64 => Ok(base),
        Kind::Vec128 => Ok(base | 0x4000_0000),
        _ => Err(Refusal::NoField),
    }
}

// The row's word for the size, and the opcode word. The base is tested without bit 30.
fn row_word(r: FpRow, size: u32, base: Opc, word: Opc) -> Result<Picked, Refusal>
    requires { size < 3 }
    ensures { pick_said result ≡ word_in r size base.0 word.0 }
{
    if !words::bit_test(r.sizes, size) {
        return Err(Refusal::NoField);
    }
    if base.0 == 0 {
        return Err(Refusal::ZeroBase);
    }
    Ok(Picked {
        word: Opc(r.xor[size as usize] ^ word.0),
        size,
    })
}

// The register's kind gives the size: Vec16, Vec32, Vec64.
#[tactic(auto, unfolding(crate::specs::Pick::scalar_of, crate::specs::Pick::word_of))]
fn pick_scalar(kind: Kind, op: Opc, row: u32) -> Result<Picked, Refusal>
    ensures { pick_said result ≡ scalar_of (kind_number kind) op.0 row }
{
    let r = fp_row(row)?;
    let size = scalar_size(kind)?;
    row_word(r, size, op, op)
}

// The element gives the size, H, S, D, and the register's kind bit 30: Vec64, Vec128.
#[tactic(auto, unfolding(crate::specs::Pick::vector_of, crate::specs::Pick::word_of))]
fn pick_vector(kind: Kind, element: Element, op: Opc, row: u32) -> Result<Picked, Refusal>
    ensures { pick_said result ≡ vector_of (kind_number kind) (element_number element) op.0 row }
{
    let r = fp_row(row)?;
    let word = with_bit_30(kind, op.0)?;
    let size = element_size(element)?;
    row_word(r, size, op, Opc(word))
}

// The word of a scalar or a vector instruction, from the base and the row for it; the other base and row are not looked at.
#[tactic(auto, unfolding(crate::specs::Pick::pick_of))]
pub fn pick_fp_opcode(
    kind: u32,
    element: u32,
    s_op: Opc,
    s_hf: u32,
    v_op: Opc,
    v_hf: u32,
) -> Result<Picked, Refusal>
    ensures { pick_said result ≡ pick_of kind element s_op.0 s_hf v_op.0 v_hf }
{
    let kind = Kind::try_from(kind)?;
    match Element::try_from(element)? {
        Element::None => pick_scalar(kind, s_op, s_hf),
        element => pick_vector(kind, element, v_op, v_hf),
    }
}
