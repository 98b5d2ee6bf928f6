// S of several shares, eight at a time, and F: the vectors x stand side by side in words (crate packed).
#![tactic(auto)]

pub mod sidebyside;

ghost use Rattle.std.specs.Prelude.{◌≡◌, ◌++◌, ◌+◌, ◌*◌, ◌<◌, ◌≤◌, length, take};
ghost use Rattle.packed.specs.Share.{share};
ghost use Rattle.interpolants.specs.Complement.{factors_of};
ghost use Rattle.exchange.specs.Sequences.{joined};
ghost use Rattle.exchange.specs.Values.{key_of, s_of, F};
ghost use Rattle.coefficients.specs.Shares.{share_of};
ghost use Rattle.coefficients.specs.Asked.{RowsAsked};

use bytefield::FieldTables;
use layout::share_length;
use parameters::Parameters;

// How many shares there are, and whether they get the constants.
#[derive(Clone, Copy)]
pub struct Group {
    pub n: usize,
    pub first: bool,
}

// rows becomes the entries of the first n shares of the words, one share after another.
fn unpack(words: &[u64], n: usize, rows: &mut [u8])
    requires { (n ≤ 8) × (length rows.old ≡ n * length words.now) }
    ensures { rows.new ≡ joined (λ i. share i words.now) n }
{
    let m = words.len();
    for i in 0..n {
        let at = i * m;
        packed::share(words, i, &mut rows[at..at + m]);
    }
}

// rows becomes S of each share of a group of up to eight, from the scales and the complement.
fn interpolate_group(
    p: Parameters,
    group: Group,
    shares: &[u8],
    matrix: &[u8],
    y: &[u8],
    factors: &[u8],
    rows: &mut [u8],
    tables: &FieldTables,
)
    requires { RowsAsked p group.n group.n shares.now matrix.now y.now rows.old × (group.n ≤ 8)
        × (factors.now ≡ factors_of p.m) }
    ensures { rows.new
        ≡ joined (λ i. s_of p (key_of matrix.now y.now) group.first (share_of p shares.now i)) group.n }
{
    let mut a = [0u64; 255];
    let m = p.m;
    let n = group.n;
    crate::sidebyside::vectors(p, n, shares, matrix, y, group.first, &mut a[..m]);
    unpack(&a[..m], n, rows);
    interpolants::interpolate(&mut a, rows, n, m, factors, tables);
    let d = 255 - m;
    unpack(&a[d..], n, rows);
}

// rows becomes S of each share of a group of any size, from the scales and the complement.
fn interpolate_with(
    p: Parameters,
    group: Group,
    shares: &[u8],
    matrix: &[u8],
    y: &[u8],
    factors: &[u8],
    rows: &mut [u8],
    tables: &FieldTables,
)
    requires { RowsAsked p group.n group.n shares.now matrix.now y.now rows.old
        × (factors.now ≡ factors_of p.m) }
    ensures { rows.new
        ≡ joined (λ i. s_of p (key_of matrix.now y.now) group.first (share_of p shares.now i)) group.n }
{
    let size = share_length(p);
    let m = p.m;
    let n = group.n;
    for i in (0..n).step_by(8) {
        let count = (n - i).min(8);
        let from = i * size;
        let to = i * m;
        let next = Group {
            n: count,
            first: group.first,
        };
        interpolate_group(
            p,
            next,
            &shares[from..from + count * size],
            matrix,
            y,
            factors,
            &mut rows[to..to + count * m],
            tables,
        );
    }
}

// rows becomes S of each of n shares, which stand one after another, with y in it where `first`, and F but its leading one behind them: m coefficients each.
pub fn interpolate_each(
    p: Parameters,
    n: usize,
    shares: &[u8],
    matrix: &[u8],
    y: &[u8],
    first: bool,
    rows: &mut [u8],
    tables: &FieldTables,
)
    requires { RowsAsked p n (n + 1) shares.now matrix.now y.now rows.old }
    ensures { rows.new
        ≡ joined (λ i. s_of p (key_of matrix.now y.now) first (share_of p shares.now i)) n ++ take p.m (F p) }
{
    let mut lent = [0u8; 256];
    let m = p.m;
    let end = n * m;
    interpolants::factors(&mut lent, m, tables);
    interpolants::vanishing(&mut rows[end..], &lent[m..]);
    let group = Group { n, first };
    interpolate_with(p, group, shares, matrix, y, &lent, &mut rows[..end], tables);
}
