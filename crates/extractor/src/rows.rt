// The rows of the axes compared: what the parties announce, and its digests.
ghost use Rattle.std.specs.Prelude.{◌≡◌, ◌<◌};
ghost use Rattle.lists.specs.Equal.{eq_list};
ghost use Rattle.extractor.specs.Comparison.{row_at, apart};
ghost use Rattle.extractor.specs.Head.{first_below};
ghost use Rattle.extractor.specs.Shapes.{Rows};

use layout::axis_length;
use lists::equal;
use parameters::Parameters;

// Are the rows of an axis the same in both openings?
pub fn same_row(p: Parameters, rows: &[u8], others: &[u8], axis: usize) -> bool
    requires { Rows p rows.now others.now × (axis < p.axes) }
    ensures { result ≡ eq_list (row_at p rows.now axis) (row_at p others.now axis) }
{
    let size = axis_length(p);
    let at = axis * size;
    let end = at + size;
    equal(&rows[at..end], &others[at..end])
}

// The first axis, from 0, whose rows differ.
pub fn first_row(p: Parameters, rows: &[u8], others: &[u8]) -> Option<u8>
    requires { Rows p rows.now others.now }
    ensures { result ≡ first_below (apart (row_at p rows.now) (row_at p others.now)) p.axes }
{
    for axis in 0..p.axes {
        if !same_row(p, rows, others, axis) {
            return Some(axis as u8);
        }
    }
    None
}
