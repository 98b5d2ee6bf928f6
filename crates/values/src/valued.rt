// The values of Q, S and P of several shares at one point, and F(r).
ghost use Rattle.std.specs.Prelude.{◌≡◌, cond, ◌≤◌, length};
ghost use Rattle.tower.specs.Field.{Point, point, bytes_of};
ghost use Rattle.exchange.specs.Reading.{value, 𝟎};
ghost use Rattle.exchange.specs.Values.{Key, F};
ghost use Rattle.points.specs.Multiples.{word_of, multiples_of};
ghost use Rattle.values.specs.Asked.{PointAsked};
ghost use Rattle.values.specs.Position.{Valued, RowsOf};
ghost use Rattle.values.specs.Products.{evaluations_at};

use crate::evaluation::values_at;
use coefficients::Group;
use layout::{at_p, at_q, share_length};
use parameters::Parameters;
use points::encoding::point_at;
use points::{point_of, sum, word_of};

// What an evaluation gives beside the values: F(r), the word of the leading term of Q, and how many products were made.
#[derive(Clone, Copy)]
pub struct Evaluation {
    pub vanishing: [u8; 4],
    pub leading: u64,
    pub made: usize,
}

// The word of the leading term of Q where `first`, else 0: the power with which the evaluation of the other terms ended.
fn leading_word(first: bool, power: [u8; 4]) -> u64
    ensures { result ≡ word_of (cond first (point power) 𝟎) }
{
    if first { word_of(power) } else { 0 }
}

// words becomes the words of Q without its leading term, S, F and P at a point r, of which the table has all multiples: those of Q and of S of
// each share, that of F without its leading term, and those of P. rows has the coefficients of each S, and behind them those of F but its
// leading one.
pub fn evaluate(
    p: Parameters,
    group: Group,
    shares: &[u8],
    rows: &[u8],
    table: &[u64],
    words: &mut [u64],
) -> Evaluation
    requires { PointAsked p group.n shares.now rows.now words.old × (128 ≤ length table.now) }
    ensures { ((key : Key) (r : Point) → RowsOf p key group.first shares.now rows.now group.n
        → table.now ≡ multiples_of r
        → Valued p key group.first shares.now group.n r words.new result.leading
        × (result.vanishing ≡ bytes_of (value (F p) r))) × (result.made ≡ evaluations_at p group.n) }
{
    let n = group.n;
    let b = 2 * n + 1;
    let size = share_length(p);
    let at = at_q(p);
    let behind = at_p(p);
    let q = values_at(shares, n, size, at, p.w, table, &mut words[..n]);
    let s = values_at(rows, n + 1, p.m, 0, p.m, table, &mut words[n..b]);
    let v = values_at(shares, n, size, behind, p.w, table, &mut words[b..]);
    Evaluation {
        vanishing: sum(point_of(words[n + n]), s.point),
        leading: leading_word(group.first, q.point),
        made: q.made + s.made + v.made,
    }
}
