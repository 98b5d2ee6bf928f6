// What several shares announce at all positions: α, β and the part of v that does not depend on the sums α̂ and β̂, called γ.
// The field tables are made once a call and lent down.
#![tactic(auto)]

pub mod evaluation;
mod position;
mod term;
mod valued;

ghost use Rattle.std.specs.Prelude.{◌≡◌, cond, [], ◌∷◌, ℕ, ◌<◌, ◌≤◌, length};
ghost use Rattle.tower.specs.Field.{point, bytes_of};
ghost use Rattle.parameters.specs.Limits.{Within};
ghost use Rattle.layout.specs.Layout.{at_x};
ghost use Rattle.exchange.specs.Values.{Key};
ghost use Rattle.values.specs.Announced.{v_of};
ghost use Rattle.values.specs.Asked.{EachAsked};
ghost use Rattle.values.specs.Leaf.{LeafAsked, leaf_values};
ghost use Rattle.values.specs.Position.{RowsOf};
ghost use Rattle.values.specs.Products.{products_of};
ghost use Rattle.values.specs.Shares.{Announcements};

use crate::position::announce_at;
use bytefield::FieldTables;
use coefficients::Group;
use layout::{
    LEAF_COEFFICIENTS, LONGEST_ROW, LONGEST_Y, factor_length, row_length, values_length, y_length,
};
use parameters::Parameters;
use points::encoding::point_at;

// out becomes α, β and γ at all positions of each of n shares, with the constants where `first`; rows has the coefficients of each S, and
// behind them those of F but its leading one. Answers how many products of the points field were made.
pub fn announce_each(
    p: Parameters,
    n: usize,
    shares: &[u8],
    rows: &[u8],
    message2: &[u8],
    first: bool,
    out: &mut [u8],
    tables: &FieldTables,
) -> usize
    requires { EachAsked p n shares.now rows.now message2.now out.old }
    ensures { ((key : Key) → RowsOf p key first shares.now rows.now n
        → Announcements p key message2.now first shares.now n out.new) × (result ≡ products_of p n) }
{
    let group = Group { n, first };
    let mut made = 0;
    for l in 0..p.t {
        made += announce_at(p, group, shares, rows, message2, l, out, tables);
    }
    made
}

// out becomes α and β of the single share s at all positions, without the constants, so that y does not enter.
// Answers how many products of the points field were made.
pub fn announce_leaf(
    p: Parameters,
    s: &[u8],
    message2: &[u8],
    matrix: &[u8],
    out: &mut [u8],
    tables: &FieldTables,
) -> usize
    requires { LeafAsked p s.now message2.now matrix.now out.old }
    ensures { (out.new ≡ leaf_values p matrix.now message2.now s.now) × (result ≡ products_of p 1) }
{
    let y = [0u8; LONGEST_Y];
    let mut rows = [0u8; LEAF_COEFFICIENTS];
    let mut block = [0u8; LONGEST_ROW];
    let n = y_length(p);
    let e = 2 * p.m;
    let a = values_length(p);
    let b = row_length(p);
    coefficients::interpolate_each(p, 1, s, matrix, &y[..n], false, &mut rows[..e], tables);
    let made = announce_each(
        p,
        1,
        s,
        &rows[..e],
        message2,
        false,
        &mut block[..b],
        tables,
    );
    lists::copy(out, &block[..a]);
    made
}

// x where `first`, else zero.
fn where_first(first: bool, x: [u8; 4]) -> [u8; 4]
    ensures { result ≡ cond first x (0 ∷ 0 ∷ 0 ∷ 0 ∷ []) }
{
    if first { x } else { [0, 0, 0, 0] }
}

// v at position l of the share s, with the constant where `first`, from its γ and the sums α̂ and β̂ over the axis:
// γ + α̂·b + β̂·a, where b has β̂ added for the constant.
pub fn v_at(
    p: Parameters,
    s: &[u8],
    l: usize,
    first: bool,
    gamma: [u8; 4],
    alpha: [u8; 4],
    beta: [u8; 4],
    tables: &FieldTables,
) -> [u8; 4]
    requires { Within p × (l < p.t) × (at_x p ≤ length s.now) }
    ensures { result ≡ bytes_of (v_of p s.now first (point gamma) (point alpha) (point beta) l) }
{
    let constant = where_first(first, beta);
    let a = point_at(s, 4 * l);
    let b = point_at(s, factor_length(p) + 4 * l);
    let x = points::product(points::sum(b, constant), alpha, tables);
    let y = points::product(a, beta, tables);
    points::sum(points::sum(gamma, x), y)
}
