// The lines that the program `unlock` prints, each written to the front of a lent array.
ghost use Rattle.std.specs.Prelude.{◌+◌, ◌≤◌, ◌<◌, length, Err};
ghost use Rattle.parameters.specs.Limits.{Within};
ghost use Rattle.keytext.specs.Listing.Laws.{Written};
ghost use Rattle.layout.specs.Maxima.{most_runs};
ghost use Rattle.unlock.specs.Lines.{number_text, number_field, set_line, runs_line, message_line, verdict_line, chance_line};

use answers::{Answer, Refusal};
use parameters::Parameters;
use shake256::shake256;

// s is written to out from index at on; the answer is the place behind it.
fn put(out: &mut [u8], at: usize, s: &[u8]) -> usize
    requires { at + length s.now ≤ length out.old }
    ensures { Written out.old at s.now result out.new }
{
    lists::put_at(out, at, s);
    at + s.len()
}

// The decimal of a number below 1,000,000 is written to out from index at on; the answer is the place behind it.
fn put_number(out: &mut [u8], at: usize, n: usize) -> usize
    requires { (n < 1_000_000) × (at + 6 ≤ length out.old) }
    ensures { Written out.old at (number_text n) result out.new × (result ≤ at + 6) }
{
    if n < 1_000 {
        return text::print::put_decimal(out, at, n);
    }
    let a = text::print::put_decimal(out, at, n / 1_000);
    let rest = n % 1_000;
    let last = [
        b'0' + (rest / 100) as u8,
        b'0' + (rest / 10 % 10) as u8,
        b'0' + (rest % 10) as u8,
    ];
    put(out, a, &last)
}

// A tab and the decimal of a number below 1,000,000, written likewise.
fn number_field(out: &mut [u8], at: usize, n: usize) -> usize
    requires { (n < 1_000_000) × (at + 7 ≤ length out.old) }
    ensures { Written out.old at (number_field n) result out.new × (result ≤ at + 7) }
{
    let a = put(out, at, b"\t");
    put_number(out, a, n)
}

// The line of the parameters; the answer is its length.
pub fn set_line(out: &mut [u8; 96], p: Parameters) -> usize
    requires { Within p }
    ensures { Written out.old 0 (set_line p) result out.new }
{
    let n = parameters::set::numbers_of(p);
    let a = put(out, 0, b"set");
    let b = number_field(out, a, n[0]);
    let c = number_field(out, b, n[1]);
    let d = number_field(out, c, n[2]);
    let e = number_field(out, d, n[3]);
    let f = number_field(out, e, n[4]);
    put(out, f, b"\n")
}

// The line of the run count; the answer is its length.
pub fn runs_line(out: &mut [u8; 96], runs: usize) -> usize
    requires { runs < 1_000_000 }
    ensures { Written out.old 0 (runs_line runs) result out.new }
{
    let a = put(out, 0, b"runs");
    let b = number_field(out, a, runs);
    put(out, b, b"\n")
}

// The line of a message; the answer is its length.
pub fn message_line(out: &mut [u8; 96], name: &[u8], message: &[u8]) -> usize
    requires { (length name.now ≤ 16) × (length message.now < 1_000_000) }
    ensures { Written out.old 0 (message_line name.now message.now) result out.new }
{
    let mut digest = [0u8; 32];
    shake256(message, &mut digest);
    let a = put(out, 0, name);
    let b = number_field(out, a, message.len());
    keytext::listing::result_line(out, b, b"", &digest)
}

// The line of the verdict, where a call was refused.
fn refused_line(out: &mut [u8; 96], r: Refusal) -> usize
    ensures { Written out.old 0 (verdict_line (Err r)) result out.new }
{
    let a = put(out, 0, b"verdict\trefused");
    let b = number_field(out, a, usize::from(u8::from(r)));
    put(out, b, b"\n")
}

// The line of the verdict; the answer is its length.
pub fn verdict_line(out: &mut [u8; 96], a: Answer) -> usize
    ensures { Written out.old 0 (verdict_line a) result out.new }
{
    match a {
        Ok(()) => put(out, 0, b"verdict\taccepted\n"),
        Err(r) => refused_line(out, r),
    }
}

// The line of the chance with which so many runs accept a prover without the key; the answer is its length.
pub fn chance_line(out: &mut [u8; 96], p: Parameters, runs: usize) -> usize
    requires { Within p × (runs ≤ most_runs) }
    ensures { Written out.old 0 (chance_line p runs) result out.new }
{
    let a = put(out, 0, b"chance\t2^-");
    let b = put_number(out, a, runs * p.axes);
    put(
        out,
        b,
        b"\tabout, that a prover without the key is accepted\n",
    )
}
