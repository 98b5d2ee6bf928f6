// The leaf commitments of two openings compared (layer 5): a leaf opened in both, of which the same is hashed, is passed over.
ghost use Rattle.std.specs.Prelude.{◌≡◌, ◌<◌};
ghost use Rattle.lists.specs.Equal.{eq_list};
ghost use Rattle.layout.specs.Layout.{leaves};
ghost use Rattle.extractor.specs.Comparison.{commitments, apart};
ghost use Rattle.extractor.specs.Head.{first_below};
ghost use Rattle.extractor.specs.Opened.{seen};
ghost use Rattle.extractor.specs.Shapes.{Committed, Both};

use crate::opened::{Opened, leaf_agrees};
use layout::{leaf_count, rows_end};
use leaves::{COMMITMENTS, leaf_commitment};
use lists::{copy, equal};
use parameters::Parameters;
use strings::begin;

// Fills out with the commitment of a leaf; the hidden leaf's is the one given.
fn commitment_at(p: Parameters, prefix: &[u8], leaf: usize, opening: Opened, out: &mut [u8])
    requires { Committed p leaf opening.made.now out.old }
    ensures { out.new ≡ commitments p prefix.now (seen p opening.entry) leaf }
{
    if leaf == opening.hidden {
        let at = rows_end(p);
        copy(out, &opening.made[at..]);
        return;
    }
    let start = begin(COMMITMENTS, prefix);
    let at = 32 * leaf;
    leaf_commitment(start, p, leaf, &opening.made[at..at + 32], opening.aux, out);
}

// Is the commitment of a leaf the same in both openings? What is the same in both has one commitment; of any other leaf
// both are made.
fn same_commitment(p: Parameters, prefix: &[u8], first: Opened, second: Opened, leaf: usize) -> bool
    requires { Both p first.made.now second.made.now × (leaf < leaves p) }
    ensures { result ≡ eq_list (commitments p prefix.now (seen p first.entry) leaf)
        (commitments p prefix.now (seen p second.entry) leaf) }
{
    if leaf_agrees(p, first, second, leaf) {
        return true;
    }
    let mut a = [0u8; 32];
    commitment_at(p, prefix, leaf, first, &mut a);
    let mut b = [0u8; 32];
    commitment_at(p, prefix, leaf, second, &mut b);
    equal(&a, &b)
}

// The first leaf whose commitments differ.
pub fn first_commitment(p: Parameters, prefix: &[u8], first: Opened, second: Opened) -> Option<u8>
    requires { Both p first.made.now second.made.now }
    ensures { result ≡ first_below (apart (commitments p prefix.now (seen p first.entry))
        (commitments p prefix.now (seen p second.entry))) (leaves p) }
{
    for leaf in 0..leaf_count(p) {
        if !same_commitment(p, prefix, first, second, leaf) {
            return Some(leaf as u8);
        }
    }
    None
}
