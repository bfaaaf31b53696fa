// The four 16-bit halfwords of a 64-bit value, of which modules 5 and 6 make moves, and how many of them are zero and how many FFFF.
#![tactic(auto)]

ghost use Rattle.std.specs.Prelude.{◌≡◌};
ghost use Rattle.halfwords.specs.Halfwords.{count, Halved, Counted};

// The four halfwords of a value, lowest first.
pub fn cut(imm: u64) -> [u32; 4]
    ensures { Halved imm result }
{
    [
        (imm % 65536) as u32,
        (imm / 65536 % 65536) as u32,
        (imm / 4294967296 % 65536) as u32,
        (imm / 281474976710656 % 65536) as u32,
    ]
}

// How many halfwords are zero, and how many are FFFF.
#[derive(Clone, Copy)]
pub struct Counts {
    pub zeros: usize,
    pub ones: usize,
}

// Both counts in one pass over the value.
pub fn count_half_words_64(imm: u64) -> Counts
    ensures { Counted imm result }
{
    let mut zeros = 0;
    let mut ones = 0;
    let mut left = imm;
    for _ in 0..4u32 {
        let h = (left % 65536) as u32;
        zeros += usize::from(h == 0);
        // FFFF alone carries with 1 more. Stays: with a test in its place, or over the halfwords cut, a move takes longer.
        ones += ((h + 1) / 65536) as usize;
        left /= 65536;
    }
    Counts { zeros, ones }
}

// How many halfwords are zero.
pub fn count_zero_half_words_64(imm: u64) -> usize
    ensures { result ≡ count 0 imm }
{
    count_half_words_64(imm).zeros
}
