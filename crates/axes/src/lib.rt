// What the parties of every axis announce (document 01, 'Parties'), for prover and verifier alike.
#![tactic(auto)]

mod axis;
pub mod digests;
mod hidden;
mod row;
mod rows;
mod total;

ghost use Rattle.std.specs.Prelude.{◌≡◌};
ghost use Rattle.exchange.specs.Sequences.{joined};
ghost use Rattle.exchange.specs.Values.{key_of};
ghost use Rattle.axes.specs.Announcing.{row_of};
ghost use Rattle.axes.specs.Asked.{RowsAsked};
ghost use Rattle.axes.specs.Axes.{products_made};

use crate::rows::put_all;
use crate::total::evaluate;
use bytefield::FieldTables;
use layout::blocks_length;
use parameters::Parameters;

// rows becomes what the parties of all axes announce, from the sum of all disclosed leaves and those of all parties but the last of each axis.
// A leaf not below n hides none; hidden_values is α and β of the hidden leaf.
// Answers how many products of the points field the evaluation made.
pub fn axis_rows(
    p: Parameters,
    sums: &[u8],
    message2: &[u8],
    matrix: &[u8],
    y: &[u8],
    hidden_leaf: usize,
    hidden_values: &[u8],
    rows: &mut [u8],
) -> usize
    requires { RowsAsked p sums.now message2.now matrix.now y.now hidden_values.now rows.old }
    ensures { (rows.new ≡ joined (row_of p (key_of matrix.now y.now) message2.now sums.now
        hidden_leaf hidden_values.now) p.axes) × (result ≡ products_made p) }
{
    let tables = FieldTables::new();
    let b = blocks_length(p);
    let made = evaluate(p, sums, message2, matrix, y, &mut rows[..b], &tables);
    put_all(p, sums, hidden_leaf, hidden_values, rows, &tables);
    made
}
