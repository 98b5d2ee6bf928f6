// α, β and γ of one share at one position, from the values of Q, S and P.
ghost use Rattle.std.specs.Prelude.{◌≡◌, ◌+◌, ◌*◌, ◌<◌, ◌≤◌, length};
ghost use Rattle.lists.specs.Part.{put_at};
ghost use Rattle.tower.specs.Field.{Point, bytes_of};
ghost use Rattle.layout.specs.Layout.{at_v};
ghost use Rattle.exchange.specs.Reading.{◌⊞◌, ◌⊠◌};
ghost use Rattle.exchange.specs.Values.{a_of, b_of, c_of};
ghost use Rattle.points.specs.Multiples.{word_of, multiples_of};
ghost use Rattle.values.specs.Asked.{ShareAsked};
ghost use Rattle.values.specs.Position.{factors_at};

use layout::{at_c, factor_length, values_length};
use parameters::Parameters;
use points::encoding::{point_at, put_point};
use points::{point_of, product_by, sum};

// The product of a value with the factor of which the table has the multiples, and x added, is written to out from place at on.
fn put_term(out: &mut [u8], at: usize, value: u64, table: &[u64], x: [u8; 4], made: usize) -> usize
    requires { (at + 4 ≤ length out.old) × (128 ≤ length table.now) × (made < 1099511627776) }
    ensures { ((b v y : Point) → table.now ≡ multiples_of b → value ≡ word_of v → x ≡ bytes_of y
        → out.new ≡ put_at out.old at (bytes_of (b ⊠ v ⊞ y)))
        × (result ≡ made + 1) }
{
    let product = product_by(point_of(value), table, made);
    put_point(out, at, sum(product.point, x));
    product.made
}

// The sum of a value and x is written to out from place at on.
fn put_sum(out: &mut [u8], at: usize, value: u64, x: [u8; 4])
    requires { at + 4 ≤ length out.old }
    ensures { (v y : Point) → value ≡ word_of v → x ≡ bytes_of y → out.new ≡ put_at out.old at (bytes_of (v ⊞ y)) }
{
    put_point(out, at, sum(point_of(value), x));
}

// α and β of the share s at position l are written to their places in out: q and r are the words of Q and S there, and the table has the
// multiples of ε. Answers how many products were made.
pub fn put_factors(
    p: Parameters,
    s: &[u8],
    l: usize,
    q: u64,
    r: u64,
    table: &[u64],
    out: &mut [u8],
) -> usize
    requires { ShareAsked p s.now l table.now out.old }
    ensures { ((ε Q S : Point) → table.now ≡ multiples_of ε → q ≡ word_of Q → r ≡ word_of S
        → out.new ≡ factors_at p l (ε ⊠ Q ⊞ a_of p s.now l) (S ⊞ b_of p s.now l) out.old) × (result ≡ 1) }
{
    let x = 4 * l;
    let y = factor_length(p) + x;
    let a = point_at(s, x);
    let made = put_term(out, x, q, table, a, 0);
    let b = point_at(s, y);
    put_sum(out, y, r, b);
    made
}

// γ of the share s at position l is written to its place in out: v is the word of P there, and the table has the multiples of ε·F(r).
// Answers how many products were made.
pub fn put_gamma(p: Parameters, s: &[u8], l: usize, v: u64, table: &[u64], out: &mut [u8]) -> usize
    requires { ShareAsked p s.now l table.now out.old }
    ensures { ((φ P : Point) → table.now ≡ multiples_of φ → v ≡ word_of P
        → out.new ≡ put_at out.old (at_v p + 4 * l) (bytes_of (φ ⊠ P ⊞ c_of p s.now l))) × (result ≡ 1) }
{
    let x = 4 * l;
    let z = values_length(p) + x;
    let c = point_at(s, at_c(p) + x);
    put_term(out, z, v, table, c, 0)
}
