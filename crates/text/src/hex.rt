// Hexadecimal, read into a lent slice.
ghost use Rattle.std.specs.Prelude.{◌≡◌, ◌<◌, ◌^◌, set};
ghost use Rattle.text.specs.Hex.{is_hex_digit, hex_value};
ghost use Rattle.text.specs.Scanner.Hex.{hex_start, hex_held, counted, hex_step, hex_accepts};

// A hex field as its digits come: the bytes so far, counted up to one more than the lent slice holds; the value of the first digit of a byte
// whose second is still to come (`half`); `sound` while every byte was a hex digit.
#[derive(Clone, Copy)]
pub struct HexScan {
    pub count: usize,
    pub half: Option<u8>,
    pub sound: bool,
}

// Is b a lower case hex digit?
pub fn is_hex_digit(b: u8) -> bool
    ensures { result ≡ is_hex_digit b }
{
    matches!(b, b'0'..=b'9' | b'a'..=b'f')
}

// The number that a hex digit stands for, 0 for any other byte (no Option: the definition is 0 there, and its laws speak of it).
pub fn hex_value(b: u8) -> u8
    ensures value { result ≡ hex_value b }
    ensures upper_bound { result < 16 }
{
    match b {
        b'0'..=b'9' => b - b'0',
        b'a'..=b'f' => b - b'a' + 10,
        _ => 0,
    }
}

// A byte stored in a slice, where the slice reaches that far.
fn store(out: &mut [u8], at: usize, b: u8)
    ensures { out.new ≡ set out.old at b }
{
    if at < out.len() {
        out[at] = b;
    }
}

// One more than n, up to one more than cap (no `min`: an n past that stays).
fn count_on(n: usize, cap: usize) -> usize
    requires { cap < 2 ^ 63 }
    ensures { result ≡ counted cap n }
{
    if n <= cap { n + 1 } else { n }
}

impl HexScan {
    // Before the field's first byte.
    pub fn new() -> Self
        ensures { result ≡ hex_start }
    {
        HexScan {
            count: 0,
            half: None,
            sound: true,
        }
    }

    // After one byte more of the field. A byte that is now whole goes into `out` where it has room; past that it is only counted.
    pub fn push(self, b: u8, out: &mut [u8]) -> Self
        ensures { hex_held result out.new ≡ hex_step (hex_held self out.old) b }
    {
        let value = hex_value(b);
        let sound = self.sound && is_hex_digit(b);
        match self.half {
            None => HexScan {
                count: self.count,
                half: Some(value),
                sound,
            },
            Some(high) => {
                let count = count_on(self.count, out.len());
                store(out, self.count, high % 16 * 16 + value);
                HexScan {
                    count,
                    half: None,
                    sound,
                }
            }
        }
    }

    // Is the field, ended here, hex?
    pub fn accepts(self) -> bool
        ensures { result ≡ hex_accepts self }
    {
        self.half.is_none() && self.sound
    }
}
