// S of up to eight vectors side by side, by power sums and one division, and F by the same division. Complement and scales depend on m alone.
#![tactic(auto)]

pub mod powersums;

ghost use Rattle.std.specs.Prelude.{◌≡◌, ◌++◌, ℕ, ◌-◌, ◌*◌, ◌<◌, ◌≤◌, length, take, drop, replicate};
ghost use Rattle.algebra.specs.Polynomial.{eval};
ghost use Rattle.bytefield.specs.Product.{byte_ops};
ghost use Rattle.polynomial.specs.Interpolant.{interpolant_of, vanishing_of};
ghost use Rattle.packed.specs.Share.{share};
ghost use Rattle.interpolants.specs.Complement.{complement_of, factors_of};
ghost use Rattle.interpolants.specs.Words.{words_of};
ghost use Rattle.interpolants.specs.Division.{Divided};

use bytefield::FieldTables;

// out, of 256 - m bytes, becomes the complement: the product of X + g over the nonzero bytes g above m.
fn complement(out: &mut [u8], m: usize, tables: &FieldTables)
    requires { (m < 256) × (length out.old ≡ 256 - m) }
    ensures { out.new ≡ complement_of m }
{
    polynomial::vanishing_above(out, m as u8, tables);
}

// The value at f of the polynomial g over bytes, by Horner's rule.
fn value(g: &[u8], f: u8, tables: &FieldTables) -> u8
    ensures { result ≡ eval byte_ops g.now f }
{
    let mut v: u8 = 0;
    for i in (0..g.len()).rev() {
        v = bytefield::sum(g[i], tables.product(f, v));
    }
    v
}

// The first m bytes of out become the scales of the m interpolation points, where the complement stands behind them.
fn scales(out: &mut [u8], m: usize, tables: &FieldTables)
    requires { (m < 256) × (m ≤ length out.old) × (drop m out.old ≡ complement_of m) }
    ensures { out.new ≡ factors_of m }
{
    for i in 0..m {
        let f = i as u8 + 1;
        let v = value(&out[m..], f, tables);
        out[i] = tables.product(f, v);
    }
}

// out becomes the scales of the m interpolation points, and behind them the complement.
pub fn factors(out: &mut [u8], m: usize, tables: &FieldTables)
    requires { (m < 256) × (length out.old ≡ 256) }
    ensures { out.new ≡ factors_of m }
{
    complement(&mut out[m..], m, tables);
    scales(out, m, tables);
}

// Each share of t is divided by X^d + g, where g has d coefficients: the quotient stands from place d on, the remainder before it.
fn divide(t: &mut [u64], g: &[u8])
    requires { length g.now ≤ length t.old }
    ensures { Divided g.now t.old t.new }
{
    let d = g.len();
    for i in (d..t.len()).rev() {
        let table = packed::multiples(t[i]);
        packed::add_multiples(&mut t[i - d..i], g, &table);
    }
}

// out, of m bytes, becomes the coefficients of F but its leading one, where g is the complement G: X^255 + 1 less X^m·G, divided by G.
pub fn vanishing(out: &mut [u8], g: &[u8])
    requires { (0 < length out.old) × (length out.old < 256) × (g.now ≡ complement_of (length out.old)) }
    ensures { out.new ≡ take (length out.old) (vanishing_of (length out.old)) }
{
    let m = out.len();
    let d = 255 - m;
    let mut a = [0u64; 255];
    a[0] = 1;
    packed::add_share(&mut a[m..], &g[..d], 0);
    divide(&mut a, &g[..d]);
    packed::share(&a[d..], 0, out);
}

// The last m words of a become S of each of n rows of m bytes, side by side, behind zeros.
pub fn interpolate(
    a: &mut [u64],
    rows: &[u8],
    n: usize,
    m: usize,
    factors: &[u8],
    tables: &FieldTables,
)
    requires { (length a.old ≡ 255) × (n ≤ 8) × (length rows.now ≡ n * m) × (m < 256) × (factors.now ≡ factors_of m) }
    ensures { (i : ℕ) → i < 8 → share i a.new ≡ replicate (255 - m) 0 ++ interpolant_of (share i (words_of rows.now n m)) }
{
    crate::powersums::power_sums(a, rows, n, &factors[..m], tables);
    divide(a, &factors[m..255]);
}
