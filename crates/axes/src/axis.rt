// The rows of an axis's parties: of all but the last one from their sums, of the last one what these leave of the row of all leaves.
ghost use Rattle.std.specs.Prelude.{◌≡◌, ◌*◌, ◌<◌, length};
ghost use Rattle.lists.specs.Part.{part};
ghost use Rattle.parameters.specs.Limits.{Within};
ghost use Rattle.layout.specs.Layout as layout;
ghost use Rattle.exchange.specs.Sequences.{joined};
ghost use Rattle.parties.specs.Sums.{less};
ghost use Rattle.axes.specs.Row.{with_hiding};
ghost use Rattle.axes.specs.Asked.{SumsAsked};
ghost use Rattle.axes.specs.Axes.{party_row, formula_rows};

use crate::row::put_row;
use bytefield::FieldTables;
use layout::{LONGEST_ROW, others, row_length, share_length, side, sum_index};
use parameters::Parameters;

// out becomes the row of a party by the formula.
fn put_party(
    p: Parameters,
    axis: usize,
    party: usize,
    sums: &[u8],
    blocks: &[u8],
    hats: &[u8],
    out: &mut [u8],
    tables: &FieldTables,
)
    requires { SumsAsked p sums.now blocks.now hats.now × (axis < p.axes) × (party < layout.others p)
        × (length out.old ≡ layout.row_length p) }
    ensures { out.new ≡ party_row p sums.now blocks.now hats.now axis party }
{
    let i = sum_index(p, axis, party);
    let size = share_length(p);
    let room = row_length(p);
    let a = i * size;
    let e = a + size;
    let b = i * room;
    let f = b + room;
    put_row(p, party == 0, &sums[a..e], &blocks[b..f], hats, out, tables);
}

// rows becomes the rows of all parties of an axis but the last one.
fn put_parties(
    p: Parameters,
    axis: usize,
    sums: &[u8],
    blocks: &[u8],
    hats: &[u8],
    rows: &mut [u8],
    tables: &FieldTables,
)
    requires { SumsAsked p sums.now blocks.now hats.now × (axis < p.axes) × (length rows.old ≡ layout.others p * layout.row_length p) }
    ensures { rows.new ≡ joined (party_row p sums.now blocks.now hats.now axis) (layout.others p) }
{
    let n = others(p);
    let room = row_length(p);
    for c in 0..n {
        let b = c * room;
        let e = b + room;
        put_party(p, axis, c, sums, blocks, hats, &mut rows[b..e], tables);
    }
}

// last becomes what the rows of all other parties leave of the row `total`.
fn put_last(p: Parameters, total: &[u8], rows: &[u8], last: &mut [u8])
    requires { Within p × (length total.now ≡ layout.row_length p) × (length rows.now ≡ layout.others p * layout.row_length p)
        × (length last.old ≡ layout.row_length p) }
    ensures { last.new
        ≡ less total.now (λ c. part rows.now (c * layout.row_length p) (layout.row_length p)) (layout.others p) }
{
    let n = others(p);
    let room = row_length(p);
    lists::copy(last, total);
    for c in 0..n {
        let b = c * room;
        let e = b + room;
        lists::xor_into(last, &rows[b..e]);
    }
}

// To the row of a party of the axis `hiding` is added.
pub fn hide(p: Parameters, party: usize, hiding: &[u8], row: &mut [u8])
    requires { Within p × (length hiding.now ≡ layout.row_length p) × (length row.old ≡ layout.axis_length p) }
    ensures { row.new ≡ with_hiding p party hiding.now row.old }
{
    if party < side(p) {
        lists::xor_at(row, party * row_length(p), hiding);
    }
}

// row becomes the rows of all parties of an axis by the formula.
pub fn put_axis(
    p: Parameters,
    axis: usize,
    sums: &[u8],
    blocks: &[u8],
    hats: &[u8],
    total: &[u8],
    row: &mut [u8],
    tables: &FieldTables,
)
    requires { SumsAsked p sums.now blocks.now hats.now × (axis < p.axes) × (length total.now ≡ layout.row_length p)
        × (length row.old ≡ layout.axis_length p) }
    ensures { row.new ≡ formula_rows p sums.now blocks.now hats.now total.now axis }
{
    let mut last = [0u8; LONGEST_ROW];
    let room = row_length(p);
    let a = others(p) * room;
    put_parties(p, axis, sums, blocks, hats, &mut row[..a], tables);
    put_last(p, total, &row[..a], &mut last[..room]);
    lists::put_at(row, a, &last[..room]);
}
