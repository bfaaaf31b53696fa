// The registers that a move may name.
ghost use Rattle.std.specs.Prelude.{◌<◌};

use words::Refusal;

// 31 is the zero register.
const LAST_REGISTER: u32 = 30;

// A register from 0 to 30.
#[derive(Clone, Copy)]
pub struct Register {
    pub number: u32,
    pub ghost general: { number < 31 },
}

impl TryFrom<u32> for Register {
    type Error = Refusal;

    ghost use Rattle.moves.specs.Register.{RegisterOf};

    ghost try_from_gives = { RegisterOf };

    fn try_from(number: u32) -> Result<Self, Refusal> {
        if number > LAST_REGISTER {
            return Err(Refusal::Register);
        }
        Ok(Register { number })
    }
}
