// Twelve bytes by value to the answer of their line, and the tail of an input to its own.
#![tactic(auto)]

ghost use Rattle.std.specs.Prelude.{◌≡◌};
ghost use Rattle.lines.specs.Item.{items_of};
ghost use Rattle.records.specs.Records.{Asked, asked_by, Says, LineOf, tail_of};
ghost use Rattle.records.specs.Answers.{OneLine, answer_in};

use lines::Answer;
use words::Refusal;

// Kind 1: the words of a move.
fn of_move(register: u8, value: u64) -> Result<Answer, Refusal>
    ensures { OneLine (Says Asked.move register value) (answer_in result) }
{
    let w = moves::mov_words(value, u32::from(register))?;
    Ok(Answer::Words(w))
}

// Kinds 2 and 3: N, S, R and the element length.
fn of_fields(value: u64, width: u32) -> Result<Answer, Refusal>
    ensures { OneLine (Says (Asked.fields width) 0 value) (answer_in result) }
{
    let f = logical::encode_logical_imm(value, width)?;
    Ok(Answer::Numbers(words::four(f.n, f.s, f.r, f.length)))
}

// Kind 4: the 8-bit float.
fn of_float(value: u64) -> Result<Answer, Refusal>
    ensures { OneLine (Says Asked.fp64 0 value) (answer_in result) }
{
    let b = immediates::encode_fp_to_imm8(value, 64)?;
    Ok(Answer::Numbers(words::one(u32::from(b))))
}

// Stays: the four kinds are read here alone, each by its number; an enum of them would be read by a second match.
#[tactic(auto, unfolding(crate::specs::Records::asked_by))]
fn asked(kind: u8, register: u8, value: u64) -> Result<Answer, Refusal>
    ensures { OneLine (Says (asked_by kind) register value) (answer_in result) }
{
    match kind {
        1 => of_move(register, value),
        2 => of_fields(value, 64),
        3 => of_fields(value, 32),
        4 => of_float(value),
        _ => Err(Refusal::Unknown),
    }
}

// The answer of a record that stands at an offset of the input: the mark `FS`, a kind, a register, and a value, low byte first.
#[tactic(auto, using(crate::proofs::Laws::first_bad, crate::proofs::Laws::second_bad), unfolding(crate::specs::Records::LineOf, crate::specs::Records::marked, crate::specs::Records::value_of))]
pub fn answer(r: [u8; 12], offset: u64) -> Answer
    ensures { OneLine (LineOf r offset) result }
{
    match r {
        [b'F', b'S', kind, register, a, b, c, d, e, f, g, h] => {
            let value = u64::from_le_bytes([a, b, c, d, e, f, g, h]);
            asked(kind, register, value).unwrap_or_else(|refusal| Answer::No(refusal))
        }
        _ => Answer::BadMark(offset),
    }
}

// The answer of what is left of an input behind its last record. Twelve bytes or more are no tail.
pub fn tail(count: usize, offset: u64) -> Answer
    ensures { items_of result ≡ tail_of count offset }
{
    match count {
        1..=11 => Answer::Cut(offset),
        _ => Answer::Nothing,
    }
}
