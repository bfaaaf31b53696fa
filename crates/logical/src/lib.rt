// Module 3's encoder: the fields N, S and R that spell a logical immediate, with the element length. Arm's DecodeBitMasks says what fields mean.
#![tactic(auto)]

ghost use Rattle.std.specs.Prelude.{◌≡◌, ◌%◌, ◌^◌, ◌≤◌, ◌<◌};
ghost use Rattle.std.specs.Int.Count.{count_trailing_zeros};
ghost use Rattle.logical.specs.Answer.{Encoded};
ghost use Rattle.logical.specs.Run.{Found, spelling, Evened};
ghost use Rattle.logical.specs.Width.{bits_of, Widths};
ghost use Rattle.words.specs.Answer.{said};

use words::Refusal;

// The fields N, S and R, and the length of the element that repeats, in bits.
#[derive(Clone, Copy)]
pub struct LogicalImm {
    pub n: u32,
    pub s: u32,
    pub r: u32,
    pub length: u32,
}

// The two widths of a register, in bits.
#[derive(Clone, Copy, Debug, PartialEq, Eq)]
pub enum Width {
    W32 = 32,
    W64 = 64,
}

impl Width {
    pub fn bits(self) -> u32
        ensures { result ≡ bits_of self }
    {
        self as u32
    }
}

impl TryFrom<u32> for Width {
    type Error = Refusal;

    ghost try_from_gives = { Widths };

    fn try_from(bits: u32) -> Result<Self, Refusal> {
        match bits {
            32 => Ok(Width::W32),
            64 => Ok(Width::W64),
            _ => Err(Refusal::Width),
        }
    }
}

// An even value as copies of an element of e bits, in which l ones stand p places up.
#[derive(Clone, Copy)]
struct Run {
    e: u32,
    p: u32,
    l: u32,
}

// The zeros below the lowest set bit.
fn zeros(x: u64) -> u32
    requires { 0 < x }
    ensures { (result ≡ count_trailing_zeros 64 x) × (result < 64) × (2 ^ result ≤ x) }
{
    x.trailing_zeros()
}

// The run of an even x. Its place and its length are read off the lowest element, and with the zeros above the top run they make the element
// length; turned by that, the value must be as it was. So there is no search over lengths. The turn is tested first: it fails for nearly
// every value that is no mask.
fn find_run(x: u64) -> Option<Run>
    requires { x % 2 ≡ 0 }
    ensures { Found 64 x result }
{
    if x == 0 {
        return None;
    }
    let p = zeros(x);
    let l = zeros((x >> p) + 1);
    let e = p + l + x.leading_zeros();
    if x.rotate_right(e) != x {
        return None;
    }
    match e {
        2 | 4 | 8 | 16 | 32 | 64 => Some(Run { e, p, l }),
        _ => None,
    }
}

// v, or where its lowest bit is set, v with all bits turned over.
fn evened(v: u64) -> u64
    ensures { Evened 64 v result }
{
    if v % 2 == 0 { v } else { !v }
}

// The fields of a run of l ones in an element of e bits, turned to the right by r. S is l - 1 below a prefix that tells e: ones down to a
// zero at the bit of e.
fn spell(e: u32, l: u32, r: u32) -> LogicalImm
    requires { (0 < l) × (l < e) × (e ≤ 64) }
    ensures { result ≡ spelling e l r }
{
    LogicalImm {
        n: e / 64,
        s: (127 + l - 2 * e) % 64,
        r,
        length: e,
    }
}

fn encode_64(v: u64) -> Result<LogicalImm, Refusal>
    ensures { Encoded 64 v (said result) }
{
    let Run { e, p, l } = find_run(evened(v)).ok_or(Refusal::NoField)?;
    if v % 2 == 0 {
        Ok(spell(e, l, e - p))
    } else {
        Ok(spell(e, e - l, e - p - l))
    }
}

// At width 32 the value stands twice in 64 bits, and an element of 64 bits does not serve.
fn encode_32(v: u64) -> Result<LogicalImm, Refusal>
    requires { v < 2 ^ 32 }
    ensures { Encoded 32 v (said result) }
{
    let f = encode_64(v * 4294967297)?;
    if f.n == 0 {
        Ok(f)
    } else {
        Err(Refusal::NoField)
    }
}

// The fields that spell the low bits of a value.
pub fn encode_logical_imm(imm: u64, width: u32) -> Result<LogicalImm, Refusal>
    ensures { Encoded width imm (said result) }
{
    match Width::try_from(width)? {
        Width::W32 => encode_32(imm % 4294967296),
        Width::W64 => encode_64(imm),
    }
}
