// Module 3's logical word: an operation, two registers and the fields of a value in one instruction word.
#![tactic(auto)]

ghost use Rattle.std.specs.Prelude.{◌≡◌, ◌%◌, ◌^◌, ◌≤◌};
ghost use Rattle.logical.specs.Width.{bits_of};
ghost use Rattle.words.specs.Answer.{said};
ghost use Rattle.words.specs.Listed.{packed};
ghost use Rattle.writers.specs.Put.{put_of};
ghost use Rattle.logical_words.specs.Operation.{operation_number, Operations};
ghost use Rattle.logical_words.specs.Word.{base_of, placed_of, ForWord};

use logical::{LogicalImm, Width};
use words::{Opc, Place, Refusal, Words};

// The operations, by their numbers.
#[derive(Clone, Copy, Debug, PartialEq, Eq)]
pub enum Operation {
    And = 0,
    Orr = 1,
    Eor = 2,
    Ands = 3,
}

impl TryFrom<u32> for Operation {
    type Error = Refusal;

    ghost try_from_gives = { Operations };

    fn try_from(number: u32) -> Result<Self, Refusal> {
        match number {
            0 => Ok(Operation::And),
            1 => Ok(Operation::Orr),
            2 => Ok(Operation::Eor),
            3 => Ok(Operation::Ands),
            _ => Err(Refusal::Unknown),
        }
    }
}

// The word of an operation with all of its fields clear.
fn base(operation: Operation, width: Width) -> Opc
    ensures { (result.0 ≡ base_of (operation_number operation) (bits_of width)) × (result.0 % 2 ^ 23 ≡ 0) }
{
    let narrow = match operation {
        Operation::And => 0x1200_0000,
        Operation::Orr => 0x3200_0000,
        Operation::Eor => 0x5200_0000,
        Operation::Ands => 0x7200_0000,
    };
    match width {
        Width::W32 => Opc(narrow),
        Width::W64 => Opc(narrow + 0x8000_0000),
    }
}

// The fields and the registers in a base word.
fn placed(base: Opc, f: LogicalImm, rn: u32, rd: u32) -> Opc
    requires { (base.0 % 2 ^ 23 ≡ 0) × (f.n ≤ 1) × (f.s ≤ 63) × (f.r ≤ 63) × (rn ≤ 31) × (rd ≤ 31) }
    ensures { result.0 ≡ placed_of base.0 f rn rd }
{
    Opc(base.0 + f.n * 4194304 + f.r * 65536 + f.s * 1024 + rn * 32 + rd)
}

// The logical word of a value, for a writer.
pub fn logical_word(
    operation: u32,
    imm: u64,
    width: u32,
    rn: u32,
    rd: u32,
) -> Result<Words, Refusal>
    ensures { ForWord operation imm width rn rd (λ x. said result ≡ packed x) }
{
    let operation = Operation::try_from(operation)?;
    let w = Width::try_from(width)?;
    if 31 < rn || 31 < rd {
        return Err(Refusal::Register);
    }
    let f = logical::encode_logical_imm(imm, width)?;
    let word = placed(base(operation, w), f, rn, rd);
    Ok(words::one(word.0))
}

// The logical word of a value, written at a place: 15, 7, 1, 2, 3, 8.
pub fn emit_logical_imm(
    words: &mut [u32],
    at: Place,
    operation: u32,
    imm: u64,
    width: u32,
    rn: u32,
    rd: u32,
) -> Result<Place, Refusal>
    ensures { ForWord operation imm width rn rd (λ x. (said result, words.new) ≡ put_of words.old at x) }
{
    writers::put(words, at, logical_word(operation, imm, width, rn, rd))
}
