// Values of polynomials with bytes as coefficients at a point. The power of the point is carried from term to term, and every product is
// counted. The caller makes the table of the point's multiples once and lends it.
ghost use Rattle.std.specs.Prelude.{◌≡◌, ◌+◌, ◌*◌, ◌<◌, ◌≤◌, length, take};
ghost use Rattle.tower.specs.Field.{Point, point, bytes_of};
ghost use Rattle.packed.specs.Table.{multiples};
ghost use Rattle.exchange.specs.Reading.{◌⊠◌};
ghost use Rattle.points.specs.Multiples.{word_of, multiples_of};
ghost use Rattle.values.specs.Evaluation.{point_power, terms_of, values_of, TermsAsked, EvaluationAsked};

use points::{Counted, counted_product, product_by, word_of};

// To each of n values the product of a coefficient and a power is added: the coefficient of value i stands at place at + i * stride of s,
// and own has the multiples of the power. Answers the count of products.
fn add_terms(
    s: &[u8],
    n: usize,
    stride: usize,
    at: usize,
    own: &[u64],
    values: &mut [u64],
    made: usize,
) -> usize
    requires { TermsAsked (length s.now) n stride at (length values.old) made × (32 ≤ length own.now) }
    ensures { ((x : Point) → take 32 own.now ≡ multiples (word_of x)
        → values.new ≡ terms_of s.now n stride at x values.old) × (result ≡ made + n) }
{
    let mut count = made;
    for (i, value) in values.iter_mut().enumerate() {
        let c = s[at + i * stride];
        let term = counted_product([c, 0, 0, 0], own, count);
        *value ^= word_of(term.point);
        count = term.made;
    }
    count
}

// The power after this one, by one product with the point of which the table has all multiples: powers are made here alone.
fn next_power(power: [u8; 4], table: &[u64], made: usize) -> Counted
    requires { (128 ≤ length table.now) × (made ≤ 131072) }
    ensures { ((r : Point) → table.now ≡ multiples_of r → result.point ≡ bytes_of (point power ⊠ r)) × (result.made ≡ made + 1) }
{
    product_by(power, table, made)
}

// One term of each of n polynomials, as add_terms has it, and the next power.
fn next_term(
    s: &[u8],
    n: usize,
    stride: usize,
    at: usize,
    power: [u8; 4],
    table: &[u64],
    values: &mut [u64],
    made: usize,
) -> Counted
    requires { TermsAsked (length s.now) n stride at (length values.old) made × (128 ≤ length table.now) }
    ensures { (values.new ≡ terms_of s.now n stride at (point power) values.old)
        × ((r : Point) → table.now ≡ multiples_of r → result.point ≡ bytes_of (point power ⊠ r)) × (result.made ≡ made + n + 1) }
{
    let own = packed::multiples(word_of(power));
    let terms = add_terms(s, n, stride, at, &own, values, made);
    next_power(power, table, terms)
}

// The values at a point r, of which the table has all multiples, of n polynomials with len bytes as coefficients, lowest first: polynomial i
// starts at place from + i * stride of s. values becomes their words. The power of r is carried from term to term, once for all of them, and
// answered with the count.
pub fn values_at(
    s: &[u8],
    n: usize,
    stride: usize,
    from: usize,
    len: usize,
    table: &[u64],
    values: &mut [u64],
) -> Counted
    requires { EvaluationAsked (length s.now) n stride from len (length values.old) × (128 ≤ length table.now) }
    ensures { ((r : Point) → table.now ≡ multiples_of r
        → (values.new ≡ values_of s.now n stride from len r) × (result.point ≡ bytes_of (point_power r len)))
        × (result.made ≡ len * (n + 1)) × (0 < n → result.made ≤ 2 * (n * len)) }
{
    packed::clear(values);
    let mut power = Counted {
        point: [1, 0, 0, 0],
        made: 0,
    };
    for at in from..from + len {
        power = next_term(s, n, stride, at, power.point, table, values, power.made);
    }
    power
}
