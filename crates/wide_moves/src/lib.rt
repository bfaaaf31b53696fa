// Request a of document 02: a MOVZ, MOVN or MOVK read from a word by its fields, and written again from them.
#![tactic(auto)]

ghost use Rattle.std.specs.Prelude.{◌≡◌};
ghost use Rattle.arm.specs.MoveWide.{decode};
ghost use Rattle.words.specs.Listed.{packed};
ghost use Rattle.wide_moves.specs.Wide.{wide_of, wide_said};
ghost use Rattle.words.specs.Answer.{said};

use words::{Opc, Refusal, Words};

// The fields of a wide move: sf is 1 at size 64 and 0 at size 32; opc is 0 for MOVN, 2 for MOVZ, 3 for MOVK; hw is the halfword's place.
// Stays: numbers and no enums, since write_wide promises the refusals 7, 1, 2 and 3 (wide_said) for numbers that are no operation, size, register
// or place.
#[derive(Clone, Copy)]
pub struct WideMove {
    pub sf: u32,
    pub opc: u32,
    pub hw: u32,
    pub imm16: u32,
    pub rd: u32,
}

// What a word is, if it is a wide move to one of the registers 0 to 30.
pub fn read_wide(w: Opc) -> Option<WideMove>
    ensures { result ≡ wide_of (decode w.0) }
{
    let x = w.0;
    if x / 8388608 % 64 != 37 {
        return None;
    }
    let sf = x / 2147483648 % 2;
    let hw = x / 2097152 % 4;
    // At size 32 there are two halfwords.
    if 2 + 2 * sf <= hw {
        return None;
    }
    let opc = x / 536870912 % 4;
    if opc == 1 {
        return None;
    }
    let rd = x % 32;
    if rd == 31 {
        return None;
    }
    Some(WideMove {
        sf,
        opc,
        hw,
        imm16: x / 32 % 65536,
        rd,
    })
}

// The word of a wide move's fields: 7, 1, 2, 3.
pub fn write_wide(m: WideMove) -> Result<Words, Refusal>
    ensures { said result ≡ packed (wide_said m) }
{
    if m.opc == 1 {
        return Err(Refusal::Unknown);
    }
    if 3 < m.opc {
        return Err(Refusal::Unknown);
    }
    if 1 < m.sf {
        return Err(Refusal::Width);
    }
    if 30 < m.rd {
        return Err(Refusal::Register);
    }
    if 2 + 2 * m.sf <= m.hw {
        return Err(Refusal::NoField);
    }
    if 65535 < m.imm16 {
        return Err(Refusal::NoField);
    }
    Ok(words::one(
        m.sf * 2147483648 + m.opc * 536870912 + 310378496 + m.hw * 2097152 + m.imm16 * 32 + m.rd,
    ))
}
