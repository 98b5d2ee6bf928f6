// What is made once for all axes: the blocks of all sums, α̂ and β̂, and the row of the sum of all disclosed leaves.
ghost use Rattle.std.specs.Prelude.{◌≡◌, true};
ghost use Rattle.parameters.specs.Limits.{Within};
ghost use Rattle.exchange.specs.Values.{key_of};
ghost use Rattle.coefficients.specs.Shares.{share_of};
ghost use Rattle.values.specs.Shares.{block_of, Announcements};
ghost use Rattle.values.specs.Products.{products_of};
ghost use Rattle.axes.specs.Row.{row_by, hats_by};
ghost use Rattle.axes.specs.Axes as spec;
ghost use Rattle.axes.specs.Axes.{Evaluated, products_made};
ghost use Rattle.axes.specs.Asked.{EvaluateAsked, SomeAsked, TotalAsked};

use crate::hidden::add_hidden;
use crate::row::{put_front, put_row};
use bytefield::FieldTables;
use layout::{MOST_COEFFICIENTS, row_length, share_length, sum_count};
use parameters::Parameters;

// How many sums have the constants in their blocks, where `first`, or else none.
fn batch(p: Parameters, first: bool) -> usize
    requires { Within p }
    ensures { result ≡ spec.batch p first }
{
    if first {
        return p.axes + 1;
    }
    sum_count(p) - (p.axes + 1)
}

// blocks becomes the blocks of the sums with the constants where `first`, or else of those with none.
// Answers how many products of the points field were made.
fn evaluate_some(
    p: Parameters,
    first: bool,
    sums: &[u8],
    message2: &[u8],
    matrix: &[u8],
    y: &[u8],
    blocks: &mut [u8],
    tables: &FieldTables,
) -> usize
    requires { SomeAsked p (spec.batch p first) sums.now message2.now matrix.now y.now blocks.old }
    ensures { Announcements p (key_of matrix.now y.now) message2.now first sums.now (spec.batch p first)
        blocks.new × (result ≡ products_of p (spec.batch p first)) }
{
    let mut rows = [0u8; MOST_COEFFICIENTS];
    let n = batch(p, first);
    let e = (n + 1) * p.m;
    coefficients::interpolate_each(p, n, sums, matrix, y, first, &mut rows[..e], tables);
    values::announce_each(p, n, sums, &rows[..e], message2, first, blocks, tables)
}

// blocks becomes the blocks of all sums: those of all leaves and of the first parties with the constants, the others without.
// Answers how many products of the points field were made.
pub fn evaluate(
    p: Parameters,
    sums: &[u8],
    message2: &[u8],
    matrix: &[u8],
    y: &[u8],
    blocks: &mut [u8],
    tables: &FieldTables,
) -> usize
    requires { EvaluateAsked p sums.now message2.now matrix.now y.now blocks.old }
    ensures { Evaluated p (key_of matrix.now y.now) message2.now sums.now blocks.new
        × (result ≡ products_made p) }
{
    let n = p.axes + 1;
    let rest = sum_count(p) - n;
    let a = n * share_length(p);
    let b = n * row_length(p);
    let made = evaluate_some(
        p,
        true,
        &sums[..a],
        message2,
        matrix,
        y,
        &mut blocks[..b],
        tables,
    );
    if rest == 0 {
        return made;
    }
    made + evaluate_some(
        p,
        false,
        &sums[a..],
        message2,
        matrix,
        y,
        &mut blocks[b..],
        tables,
    )
}

// hats and total become α̂ and β̂, and the row of the sum of all disclosed leaves, which stands behind those of the first parties.
pub fn total_row(
    p: Parameters,
    sums: &[u8],
    blocks: &[u8],
    hidden_leaf: usize,
    hidden_values: &[u8],
    hats: &mut [u8],
    total: &mut [u8],
    tables: &FieldTables,
)
    requires { TotalAsked p sums.now blocks.now hidden_values.now hats.old total.old }
    ensures { (hats.new ≡ hats_by p hidden_leaf (block_of p blocks.now p.axes) hidden_values.now)
        × (total.new ≡ row_by p true (share_of p sums.now p.axes) (block_of p blocks.now p.axes) hats.new) }
{
    let size = share_length(p);
    let room = row_length(p);
    let a = p.axes * size;
    let e = a + size;
    let b = p.axes * room;
    let f = b + room;
    put_front(p, &blocks[b..f], hats);
    add_hidden(p, hidden_leaf, hidden_values, hats);
    put_row(p, true, &sums[a..e], &blocks[b..f], hats, total, tables);
}
