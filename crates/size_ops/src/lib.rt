// Module 9: the size op of a SIMD instruction, by its map entry, the kind of its registers and their elements.
#![tactic(auto)]

ghost use Rattle.std.specs.Prelude.{◌≡◌, ◌<◌};
ghost use Rattle.simd.specs.Kinds.{kind_number, element_number};
ghost use Rattle.size_ops.specs.SizeOp.{entry_of, size_op_of};
ghost use Rattle.words.specs.Answer.{said};

use simd::{Element, Kind};
use words::Refusal;

// The map entry of an instruction: the table, the bits that its size op keeps, and the size ops that it accepts.
#[derive(Clone, Copy)]
pub struct SizeOpMap {
    pub table_id: u32,
    pub size_op_mask: u32,
    pub accept_mask: u32,
}

// Stays: the theorem Tables#rule speaks of these rows, as they are loaded.
// A row for each kind 0 to 7 in table 0, then in table 1. The bytes of a row, from the low one on, are the size ops of the elements 0 to 7.
const SIZE_OP_ROWS: [u64; 16] = [
    // table 0, the last two Vec64 and Vec128
    0xFFFF_FFFF_FFFF_FFFF,
    0xFFFF_FFFF_FFFF_FFFF,
    0xFFFF_FFFF_FFFF_FFFF,
    0xFFFF_FFFF_FFFF_FFFF,
    0xFFFF_FFFF_FFFF_FFFF,
    0xFFFF_FFFF_FFFF_FFFF,
    0xFFFF_FFFF_FFFF_0000,
    0xFFFF_FFFF_FFFF_0101,
    // table 1, the last five Vec8 to Vec128
    0xFFFF_FFFF_FFFF_FFFF,
    0xFFFF_FFFF_FFFF_FFFF,
    0xFFFF_FFFF_FFFF_FFFF,
    0xFFFF_FFFF_FFFF_FF02,
    0xFFFF_FFFF_FFFF_FF06,
    0xFFFF_FFFF_FFFF_FF0A,
    0xFFFF_FF0E_0804_000E,
    0xFFFF_FF0D_0905_01FF,
];

// The entry of a table, 0 or 1. Of the Rust's 240 entries only the first 48 can be reached, since an element is below 8; its kinds 0 to 2 share a row.
fn size_op_entry(table: u32, kind: Kind, element: Element) -> u32
    requires { table < 2 }
    ensures { result ≡ entry_of table (kind_number kind) (element_number element) }
{
    let row = SIZE_OP_ROWS[(table * 8 + kind as u32) as usize];
    ((row >> (8 * element as u32)) % 256) as u32
}

// The size op of a kind and an element; FF where the map does not accept it.
#[tactic(auto, unfolding(crate::specs::SizeOp::size_op_of, crate::specs::SizeOp::accepted_of))]
pub fn element_type_to_size_op(map: SizeOpMap, kind: u32, element: u32) -> Result<u32, Refusal>
    ensures { said result ≡ size_op_of map.table_id map.size_op_mask map.accept_mask kind element }
{
    let table = map.table_id;
    if table > 1 {
        return Err(Refusal::Unknown);
    }
    let op = size_op_entry(table, Kind::try_from(kind)?, Element::try_from(element)?);
    if words::bit_test(map.accept_mask, op) {
        return Ok(op & map.size_op_mask);
    }
    Ok(255)
}
