// The entries that answer by value.
use crate::{Request, low};
use lines::Answer;
use logical::LogicalImm;
use size_ops::SizeOpMap;
use words::{Opc, Refusal};

// A number, yes or no, the two halves of 64 bits, and the fields of a logical immediate.
pub(crate) fn one(x: u32) -> Answer {
    Answer::Numbers(words::one(x))
}

fn yes(b: bool) -> Answer {
    one(u32::from(b))
}

fn halves(x: u64) -> Answer {
    Answer::Words(words::two((x / 4294967296) as u32, low(x)))
}

fn fields(f: LogicalImm) -> Answer {
    Answer::Numbers(words::four(f.n, f.s, f.r, f.length))
}

// Module 1.
fn ground(r: Request) -> Result<Answer, Refusal> {
    match r.entry {
        16 => Ok(yes(words::bit_test(low(r.a), low(r.b)))),
        17 => Ok(halves(words::lsb_mask(low(r.a)))),
        _ => Err(Refusal::Unknown),
    }
}

// Module 2.
fn checks(r: Request) -> Result<Answer, Refusal> {
    match r.entry {
        32 => Ok(yes(registers::check_gp_id(low(r.a), low(r.b)))),
        33 => Ok(yes(registers::check_gp_id2(low(r.a), low(r.b), low(r.c)))),
        34 => Ok(yes(registers::check_gp_id3(low(r.a), low(r.b), low(r.c), low(r.d)))),
        35 => Ok(yes(registers::check_vec_id(low(r.a)))),
        36 => Ok(yes(registers::check_vec_id2(low(r.a), low(r.b)))),
        37 => Ok(yes(registers::check_vec_id3(low(r.a), low(r.b), low(r.c)))),
        38 => Ok(one(registers::cond_code_to_opcode_field(low(r.a)))),
        39 => registers::shift_op_to_ld_st_op(low(r.a)).map(one),
        _ => Err(Refusal::Unknown),
    }
}

// Modules 3 to 5.
fn values(r: Request) -> Result<Answer, Refusal> {
    match r.entry {
        48 => logical::encode_logical_imm(r.a, low(r.b)).map(fields),
        64 => logical_decoder::decode_logical_imm(low(r.a), low(r.b), low(r.c), low(r.d)).map(
            halves,
        ),
        65 => logical_decoder::normalise(low(r.a), low(r.b), low(r.c), low(r.d)).map(fields),
        82 => Ok(one(low(halfwords::count_zero_half_words_64(r.a) as u64))),
        _ => Err(Refusal::Unknown),
    }
}

// Module 7.
fn reads(r: Request) -> Result<Answer, Refusal> {
    match r.entry {
        114 => displacements::read_disp(Opc(low(r.a)), low(r.b)).map(|d| halves(words::bits_of(
            d.0,
        ))),
        115 => forms::has_form(low(r.a), Opc(low(r.b))).map(yes),
        _ => Err(Refusal::Unknown),
    }
}

// Module 8.
fn small(r: Request) -> Result<Answer, Refusal> {
    match r.entry {
        128 => immediates::encode_fp_to_imm8(r.a, low(r.b)).map(|b| one(u32::from(b))),
        129 => Ok(yes(immediates::is_fp16_imm8(low(r.a)))),
        130 => Ok(yes(immediates::is_fp32_imm8(low(r.a)))),
        131 => Ok(yes(immediates::is_fp64_imm8(r.a))),
        132 => immediates::encode_imm64_byte_mask_to_imm8(r.a).map(|b| one(u32::from(b))),
        133 => Ok(yes(immediates::is_byte_mask_imm(r.a))),
        _ => Err(Refusal::Unknown),
    }
}

fn size_op(r: Request) -> Result<Answer, Refusal> {
    let map = SizeOpMap {
        table_id: low(r.a),
        size_op_mask: low(r.b),
        accept_mask: low(r.c),
    };
    size_ops::element_type_to_size_op(map, low(r.d), low(r.e)).map(one)
}

fn pick(r: Request) -> Result<Answer, Refusal> {
    let (gp, vec) = (Opc(low(r.c)), Opc(low(r.e)));
    let p = fp_picks::pick_fp_opcode(low(r.a), low(r.b), gp, low(r.d), vec, low(r.f))?;
    Ok(Answer::Numbers(words::two(p.word.0, p.size)))
}

// Module 9.
fn sizes(r: Request) -> Result<Answer, Refusal> {
    match r.entry {
        144 => simd::encode_lmh(low(r.a), low(r.b)).map(|x| Answer::Numbers(words::three(
            x.lm,
            x.h,
            x.max_rm_id,
        ))),
        145 => size_op(r),
        146 => pick(r),
        _ => Err(Refusal::Unknown),
    }
}

// By the module, which is the number's sixteenth.
pub(crate) fn answer(r: Request) -> Result<Answer, Refusal> {
    match r.entry / 16 {
        1 => ground(r),
        2 => checks(r),
        3 | 4 | 5 => values(r),
        7 => reads(r),
        8 => small(r),
        9 => sizes(r),
        _ => Err(Refusal::Unknown),
    }
}
