// Module 2: checks of register numbers, the condition field, and the map of shift operations to those of loads and stores.
#![tactic(auto)]

ghost use Rattle.std.specs.Prelude.{◌≡◌, ◌&&◌};
ghost use Rattle.registers.specs.Checks.{gp_ok, vec_ok, cond_field};
ghost use Rattle.registers.specs.Shifts.{shift_of};
ghost use Rattle.words.specs.Answer.{said};

use words::Refusal;

// A general register: below 31, or the high id that the caller names.
pub fn check_gp_id(id: u32, hi: u32) -> bool
    ensures { result ≡ gp_ok id hi }
{
    id < 31 || id == hi
}

// Stays: the entries for two and three ids are public by these names, and a conjunction in a line is plainer than one function over an array of ids.
pub fn check_gp_id2(id0: u32, id1: u32, hi: u32) -> bool
    ensures { result ≡ (gp_ok id0 hi && gp_ok id1 hi) }
{
    check_gp_id(id0, hi) && check_gp_id(id1, hi)
}

pub fn check_gp_id3(id0: u32, id1: u32, id2: u32, hi: u32) -> bool
    ensures { result ≡ (gp_ok id0 hi && (gp_ok id1 hi && gp_ok id2 hi)) }
{
    check_gp_id(id0, hi) && check_gp_id2(id1, id2, hi)
}

// A vector register: below 32.
pub fn check_vec_id(id: u32) -> bool
    ensures { result ≡ vec_ok id }
{
    id < 32
}

// Stays: as of the general registers.
pub fn check_vec_id2(id0: u32, id1: u32) -> bool
    ensures { result ≡ (vec_ok id0 && vec_ok id1) }
{
    check_vec_id(id0) && check_vec_id(id1)
}

pub fn check_vec_id3(id0: u32, id1: u32, id2: u32) -> bool
    ensures { result ≡ (vec_ok id0 && (vec_ok id1 && vec_ok id2)) }
{
    check_vec_id(id0) && check_vec_id2(id1, id2)
}

// The condition field of a condition code.
pub fn cond_code_to_opcode_field(cond: u32) -> u32
    ensures { result ≡ cond_field cond }
{
    cond.wrapping_sub(2) % 16
}

const SHIFT_OP_TO_LD_ST_OP_MAP: [u8; 16] = [
    3, 255, 255, 255, 255, 255, 255, 255, 2, 255, 255, 255, 6, 7, 255, 255,
];

// What a load or store has for a shift operation.
pub fn shift_op_to_ld_st_op(op: u32) -> Result<u32, Refusal>
    ensures { said result ≡ shift_of op }
{
    let entry = SHIFT_OP_TO_LD_ST_OP_MAP.get(op as usize);
    entry.map(|&e| u32::from(e)).ok_or(Refusal::Unknown)
}
