// Text written into a lent slice.
ghost use Rattle.std.specs.Prelude.{◌≡◌, ◌+◌, ◌*◌, ◌≤◌, ◌<◌, length};
ghost use Rattle.lists.specs.Part.{put_at};
ghost use Rattle.text.specs.Decimal.{decimal_text};
ghost use Rattle.text.specs.Hex.{hex_digit, hex_text};

// The hex digit of a number below 16.
fn hex_digit(n: u8) -> u8
    requires { n < 16 }
    ensures { result ≡ hex_digit n }
{
    if n < 10 { b'0' + n } else { b'a' + n - 10 }
}

// The bytes s in hex are written to out from index at on.
pub fn put_hex(out: &mut [u8], at: usize, s: &[u8])
    requires { at + 2 * length s.now ≤ length out.old }
    ensures { out.new ≡ put_at out.old at (hex_text s.now) }
{
    for (i, b) in s.iter().enumerate() {
        let place = at + 2 * i;
        out[place] = hex_digit(b / 16);
        out[place + 1] = hex_digit(b % 16);
    }
}

// The digit of a number below 10.
fn digit(n: usize) -> u8
    requires { n < 10 }
    ensures { result ≡ 48 + n }
{
    b'0' + n as u8
}

// The decimal of a number below 1,000 is written to out from index at on; the answer is the place behind it.
pub fn put_decimal(out: &mut [u8], at: usize, n: usize) -> usize
    requires { (n < 1000) × (at + 3 ≤ length out.old) }
    ensures { (result ≡ at + length (decimal_text n)) × (out.new ≡ put_at out.old at (decimal_text n)) }
{
    if n < 10 {
        out[at] = digit(n);
        return at + 1;
    }
    if n < 100 {
        out[at] = digit(n / 10);
        out[at + 1] = digit(n % 10);
        return at + 2;
    }
    out[at] = digit(n / 100);
    out[at + 1] = digit(n / 10 % 10);
    out[at + 2] = digit(n % 10);
    at + 3
}
