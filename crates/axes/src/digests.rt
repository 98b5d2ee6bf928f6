// Layers 6 and 7: the digest of what the parties of an axis announce, and the digest of all axes. Each string of layer 6
// goes on from the start of its layer, which is made once.
ghost use Rattle.std.specs.Prelude.{◌≡◌, List, ◌∷◌, ℕ, ◌+◌, ◌<◌, length};
ghost use Rattle.shake256.specs.Stream.{absorbed};
ghost use Rattle.shake256.specs.Fips.{SHAKE256};
ghost use Rattle.exchange.specs.Strings.{string};
ghost use Rattle.strings.specs.Digest.{begun};
ghost use Rattle.axes.specs.RowStrings.{rows_string, ResponseAsked};

use layout::axis_length;
use parameters::Parameters;
use shake256::Sponge;
use strings::{absorb, begin, digest, hash};

// The layer byte of the strings of the axes.
const AXES: u8 = 6;

// The layer byte of the string of all axes.
const RESPONSE: u8 = 7;

// Fills out with the digest of an axis's row; axes is the start of the strings of layer 6.
fn row_digest(axes: Sponge, axis: usize, row: &[u8], out: &mut [u8])
    requires { axis < 255 }
    ensures { (prefix : List ℕ) → axes ≡ begun 6 prefix
        → out.new ≡ SHAKE256 (string 6 prefix ((axis + 1) ∷ row.now)) (length out.old) }
{
    let number = [(axis + 1) as u8];
    hash(axes, &number, row, &[], out);
}

// The sponge that has absorbed the digest of one axis more.
fn add_axis(all: Sponge, axes: Sponge, axis: usize, row: &[u8]) -> Sponge
    requires { axis < 255 }
    ensures { (prefix : List ℕ) → axes ≡ begun 6 prefix → result ≡ absorbed all (SHAKE256 (string 6 prefix ((axis + 1) ∷ row.now)) 32) }
{
    let mut h = [0u8; 32];
    row_digest(axes, axis, row, &mut h);
    absorb(all, &h)
}

// Fills out with the digest of what the parties of an axis announce (layer 6); axes count from 0.
pub fn axis_digest(prefix: &[u8], axis: usize, row: &[u8], out: &mut [u8])
    requires { axis < 255 }
    ensures { out.new ≡ SHAKE256 (string 6 prefix.now ((axis + 1) ∷ row.now)) (length out.old) }
{
    row_digest(begin(AXES, prefix), axis, row, out);
}

// Fills out with the digest of all axes (layer 7), from their rows.
pub fn response_digest(p: Parameters, prefix: &[u8], rows: &[u8], out: &mut [u8])
    requires { ResponseAsked p rows.now }
    ensures { out.new ≡ SHAKE256 (rows_string SHAKE256 p prefix.now rows.now) (length out.old) }
{
    let axes = begin(AXES, prefix);
    let mut all = begin(RESPONSE, prefix);
    let width = axis_length(p);
    for j in 0..p.axes {
        let b = j * width;
        let e = b + width;
        all = add_axis(all, axes, j, &rows[b..e]);
    }
    digest(all, out);
}
