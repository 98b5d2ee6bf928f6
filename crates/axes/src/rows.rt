// The rows of all axes, one after another.
ghost use Rattle.std.specs.Prelude.{◌≡◌, ◌*◌, length, take};
ghost use Rattle.lists.specs.Part.{part};
ghost use Rattle.parameters.specs.Limits.{Within};
ghost use Rattle.layout.specs.Layout.{blocks_length, row_length, axis_length, rows_length};
ghost use Rattle.exchange.specs.Sequences.{joined};
ghost use Rattle.axes.specs.Row.{hidden_party, with_hiding};
ghost use Rattle.axes.specs.Asked.{AllAsked, SumsAsked};
ghost use Rattle.axes.specs.Axes.{formula_rows, rows_by};

use crate::axis::{hide, put_axis};
use crate::hidden::hidden_party;
use crate::total::total_row;
use bytefield::FieldTables;
use layout::{
    LONGEST_ROW, MOST_BLOCKS, MOST_VALUES, axis_length, blocks_length, row_length, values_length,
};
use parameters::Parameters;

// rows becomes the rows of all axes by the formula, from what is made once for all of them.
fn put_rows(
    p: Parameters,
    sums: &[u8],
    blocks: &[u8],
    hats: &[u8],
    total: &[u8],
    rows: &mut [u8],
    tables: &FieldTables,
)
    requires { SumsAsked p sums.now blocks.now hats.now × (length total.now ≡ row_length p)
        × (length rows.old ≡ rows_length p) }
    ensures { rows.new
        ≡ joined (formula_rows p sums.now blocks.now hats.now total.now) p.axes }
{
    let width = axis_length(p);
    for j in 0..p.axes {
        let b = j * width;
        let e = b + width;
        put_axis(p, j, sums, blocks, hats, total, &mut rows[b..e], tables);
    }
}

// On every axis `hiding` is added to the row of the party that holds the hidden leaf, where one is hidden.
fn hide_rows(p: Parameters, hidden_leaf: usize, hiding: &[u8], rows: &mut [u8])
    requires { Within p × (length hiding.now ≡ row_length p) × (length rows.old ≡ rows_length p) }
    ensures { rows.new ≡ joined (λ j. with_hiding p (hidden_party p hidden_leaf j) hiding.now
        (part rows.old (j * axis_length p) (axis_length p))) p.axes }
{
    let width = axis_length(p);
    for j in 0..p.axes {
        let b = j * width;
        let e = b + width;
        hide(p, hidden_party(p, j, hidden_leaf), hiding, &mut rows[b..e]);
    }
}

// rows becomes the rows of all axes, from the blocks of all sums.
fn put_from(
    p: Parameters,
    sums: &[u8],
    blocks: &[u8],
    hidden_leaf: usize,
    hidden_values: &[u8],
    rows: &mut [u8],
    tables: &FieldTables,
)
    requires { AllAsked p sums.now hidden_values.now rows.old × (length blocks.now ≡ blocks_length p) }
    ensures { rows.new ≡ rows_by p sums.now blocks.now hidden_leaf hidden_values.now }
{
    let mut hats = [0u8; MOST_VALUES];
    let mut total = [0u8; LONGEST_ROW];
    let v = values_length(p);
    let t = row_length(p);
    total_row(
        p,
        sums,
        blocks,
        hidden_leaf,
        hidden_values,
        &mut hats[..v],
        &mut total[..t],
        tables,
    );
    put_rows(p, sums, blocks, &hats[..v], &total[..t], rows, tables);
    lists::put_at(&mut total[..t], 0, hidden_values);
    hide_rows(p, hidden_leaf, &total[..t], rows);
}

// rows becomes the rows of all axes, from the blocks of all sums, with which it starts. The array for them stands here, where it is not alive
// while they are made.
pub fn put_all(
    p: Parameters,
    sums: &[u8],
    hidden_leaf: usize,
    hidden_values: &[u8],
    rows: &mut [u8],
    tables: &FieldTables,
)
    requires { AllAsked p sums.now hidden_values.now rows.old }
    ensures { rows.new
        ≡ rows_by p sums.now (take (blocks_length p) rows.old) hidden_leaf hidden_values.now }
{
    let mut blocks = [0u8; MOST_BLOCKS];
    let b = blocks_length(p);
    lists::copy(&mut blocks[..b], &rows[..b]);
    put_from(
        p,
        sums,
        &blocks[..b],
        hidden_leaf,
        hidden_values,
        rows,
        tables,
    );
}
