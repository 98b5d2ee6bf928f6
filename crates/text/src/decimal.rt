// A decimal.
ghost use Rattle.std.specs.Prelude.{◌≡◌};
ghost use Rattle.text.specs.Decimal.{is_digit};
ghost use Rattle.text.specs.Scanner.Decimal.{decimal_start, decimal_broken, decimal_step, decimal_accepts};

// A decimal as its digits come: how many, their value, whether they are a single 0; `sound` while the field can still be a decimal.
#[derive(Clone, Copy)]
pub struct DecimalScan {
    pub digits: usize,
    pub value: usize,
    pub zero: bool,
    pub sound: bool,
}

// Is b a digit?
pub fn is_digit(b: u8) -> bool
    ensures { result ≡ is_digit b }
{
    matches!(b, b'0'..=b'9')
}

impl DecimalScan {
    // Before the field's first byte.
    pub fn new() -> Self
        ensures { result ≡ decimal_start }
    {
        DecimalScan {
            digits: 0,
            value: 0,
            zero: false,
            sound: true,
        }
    }

    // The field is no decimal.
    fn broken(self) -> Self
        ensures { result ≡ decimal_broken self }
    {
        DecimalScan {
            sound: false,
            ..self
        }
    }

    // After one byte more of a field of at most `limit` digits; `limit` is at most 9.
    pub fn push(self, b: u8, limit: usize) -> Self
        ensures { result ≡ decimal_step limit self b }
    {
        if !is_digit(b) || self.digits >= limit || self.zero || self.value > 99_999_999 {
            return self.broken();
        }
        DecimalScan {
            digits: self.digits + 1,
            value: 10 * self.value + usize::from(b - b'0'),
            zero: self.digits == 0 && b == b'0',
            sound: self.sound,
        }
    }

    // Is the field, ended here, a decimal?
    pub fn accepts(self) -> bool
        ensures { result ≡ decimal_accepts self }
    {
        self.digits != 0 && self.sound
    }
}
