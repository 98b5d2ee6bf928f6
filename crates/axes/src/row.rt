// The row of a share: α, β and v at all positions. A block is α, β and γ of the share; the constants are in both or in none.
ghost use Rattle.std.specs.Prelude.{◌≡◌, ◌<◌, length};
ghost use Rattle.tower.specs.Field.{bytes_of};
ghost use Rattle.parameters.specs.Limits.{Within};
ghost use Rattle.layout.specs.Layout.{points_length, values_length, row_length};
ghost use Rattle.axes.specs.Row.{front_by, v_at, v_by, row_by};
ghost use Rattle.axes.specs.Asked.{RowAsked};

use bytefield::FieldTables;
use layout::{factor_length, values_length};
use parameters::Parameters;

// out becomes α and β of a block.
pub fn put_front(p: Parameters, block: &[u8], out: &mut [u8])
    requires { Within p × (length block.now ≡ row_length p) × (length out.old ≡ values_length p) }
    ensures { out.new ≡ front_by p block.now }
{
    let a = out.len();
    lists::copy(out, &block[..a]);
}

// v at position l of the share s, with the constant α̂·β̂ where `first`.
fn row_v(
    p: Parameters,
    first: bool,
    s: &[u8],
    block: &[u8],
    hats: &[u8],
    l: usize,
    tables: &FieldTables,
) -> [u8; 4]
    requires { RowAsked p s.now block.now hats.now × (l < p.t) }
    ensures { result ≡ bytes_of (v_at p first s.now block.now hats.now l) }
{
    let gamma = points::encoding::point_at(block, values_length(p) + 4 * l);
    let alpha = points::encoding::point_at(hats, 4 * l);
    let beta = points::encoding::point_at(hats, factor_length(p) + 4 * l);
    values::v_at(p, s, l, first, gamma, alpha, beta, tables)
}

// out becomes v at all positions of the share s, with the constant α̂·β̂ where `first`.
fn put_v(
    p: Parameters,
    first: bool,
    s: &[u8],
    block: &[u8],
    hats: &[u8],
    out: &mut [u8],
    tables: &FieldTables,
)
    requires { RowAsked p s.now block.now hats.now × (length out.old ≡ points_length p) }
    ensures { out.new ≡ v_by p first s.now block.now hats.now }
{
    for l in 0..p.t {
        let v = row_v(p, first, s, block, hats, l, tables);
        points::encoding::put_point(out, 4 * l, v);
    }
}

// out becomes the row of the share s, from its block, and α̂ and β̂.
pub fn put_row(
    p: Parameters,
    first: bool,
    s: &[u8],
    block: &[u8],
    hats: &[u8],
    out: &mut [u8],
    tables: &FieldTables,
)
    requires { RowAsked p s.now block.now hats.now × (length out.old ≡ row_length p) }
    ensures { out.new ≡ row_by p first s.now block.now hats.now }
{
    let a = values_length(p);
    put_front(p, block, &mut out[..a]);
    put_v(p, first, s, block, hats, &mut out[a..], tables);
}
