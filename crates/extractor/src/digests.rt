// The digests of the axes compared (layer 7): only rows that differ are hashed.
ghost use Rattle.std.specs.Prelude.{◌≡◌, ◌<◌};
ghost use Rattle.lists.specs.Equal.{eq_list};
ghost use Rattle.extractor.specs.Comparison.{digest_at, apart};
ghost use Rattle.extractor.specs.Head.{first_below};
ghost use Rattle.extractor.specs.Shapes.{Rows};

use crate::rows::same_row;
use axes::digests::axis_digest;
use layout::axis_length;
use lists::equal;
use parameters::Parameters;

// Is the digest of an axis the same in both openings? Equal rows have one digest; of others both are made.
fn same_digest(p: Parameters, prefix: &[u8], rows: &[u8], others: &[u8], axis: usize) -> bool
    requires { Rows p rows.now others.now × (axis < p.axes) }
    ensures { result ≡ eq_list (digest_at p prefix.now rows.now axis)
        (digest_at p prefix.now others.now axis) }
{
    if same_row(p, rows, others, axis) {
        return true;
    }
    let size = axis_length(p);
    let at = axis * size;
    let end = at + size;
    let mut a = [0u8; 32];
    axis_digest(prefix, axis, &rows[at..end], &mut a);
    let mut b = [0u8; 32];
    axis_digest(prefix, axis, &others[at..end], &mut b);
    equal(&a, &b)
}

// The first axis, from 0, whose digests differ.
pub fn first_digest(p: Parameters, prefix: &[u8], rows: &[u8], others: &[u8]) -> Option<u8>
    requires { Rows p rows.now others.now }
    ensures { result ≡ first_below (apart (digest_at p prefix.now rows.now)
        (digest_at p prefix.now others.now)) p.axes }
{
    for axis in 0..p.axes {
        if !same_digest(p, prefix, rows, others, axis) {
            return Some(axis as u8);
        }
    }
    None
}
