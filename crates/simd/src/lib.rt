// Module 9: SIMD sizes: the kinds of registers and of elements by their numbers, and the fields of an element index. Answers are by value: nothing
// is written before a refusal.
#![tactic(auto)]

ghost use Rattle.std.specs.Prelude.{◌≡◌};
ghost use Rattle.simd.specs.Kinds.{KindOf, ElementOf};
ghost use Rattle.simd.specs.Lmh.{lmh_of};
ghost use Rattle.words.specs.Answer.{said};

use words::Refusal;

// A kind of registers, by its number.
#[derive(Clone, Copy, Debug, PartialEq, Eq)]
pub enum Kind {
    Other = 0,
    Gp32 = 1,
    Gp64 = 2,
    Vec8 = 3,
    Vec16 = 4,
    Vec32 = 5,
    Vec64 = 6,
    Vec128 = 7,
}

impl TryFrom<u32> for Kind {
    type Error = Refusal;

    ghost try_from_gives = { KindOf };

    fn try_from(n: u32) -> Result<Self, Refusal> {
        match n {
            0 => Ok(Kind::Other),
            1 => Ok(Kind::Gp32),
            2 => Ok(Kind::Gp64),
            3 => Ok(Kind::Vec8),
            4 => Ok(Kind::Vec16),
            5 => Ok(Kind::Vec32),
            6 => Ok(Kind::Vec64),
            7 => Ok(Kind::Vec128),
            _ => Err(Refusal::Unknown),
        }
    }
}

// A kind of elements, by its number; the last three are others.
#[derive(Clone, Copy, Debug, PartialEq, Eq)]
pub enum Element {
    None = 0,
    B = 1,
    H = 2,
    S = 3,
    D = 4,
    Other5 = 5,
    Other6 = 6,
    Other7 = 7,
}

impl TryFrom<u32> for Element {
    type Error = Refusal;

    ghost try_from_gives = { ElementOf };

    fn try_from(n: u32) -> Result<Self, Refusal> {
        match n {
            0 => Ok(Element::None),
            1 => Ok(Element::B),
            2 => Ok(Element::H),
            3 => Ok(Element::S),
            4 => Ok(Element::D),
            5 => Ok(Element::Other5),
            6 => Ok(Element::Other6),
            7 => Ok(Element::Other7),
            _ => Err(Refusal::Unknown),
        }
    }
}

// The fields of an element index, and the highest register that can stand beside it.
#[derive(Clone, Copy)]
pub struct Lmh {
    pub lm: u32,
    pub h: u32,
    pub max_rm_id: u32,
}

// Refused: a size other than 1 and 2, then an index above the size's limit.
#[tactic(auto, unfolding(crate::specs::Lmh::lmh_of))]
pub fn encode_lmh(size_field: u32, element_index: u32) -> Result<Lmh, Refusal>
    ensures { said result ≡ lmh_of size_field element_index }
{
    match size_field {
        1 if element_index <= 7 => Ok(Lmh {
            lm: element_index % 4,
            h: element_index / 4,
            max_rm_id: 15,
        }),
        2 if element_index <= 3 => Ok(Lmh {
            lm: 2 * (element_index % 2),
            h: element_index / 2,
            max_rm_id: 31,
        }),
        1 | 2 => Err(Refusal::Index),
        _ => Err(Refusal::Unknown),
    }
}
