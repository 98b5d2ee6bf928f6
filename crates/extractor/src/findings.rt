// What two openings of a run gave, compared: the first unequal pair of strings.
ghost use Rattle.std.specs.Prelude.{◌≡◌};
ghost use Rattle.extractor.specs.Comparison.{leaf_comparison, comparison};
ghost use Rattle.extractor.specs.Opened.{seen};
ghost use Rattle.extractor.specs.Shapes.{Openings};
ghost use Rattle.extractor.specs.Difference.{layer_of, number_of, named, difference_of};

use crate::commitments::first_commitment;
use crate::digests::first_digest;
use crate::opened::{Opened, first_leaf};
use crate::rows::first_row;
use layout::{rows_end, states_length};
use parameters::Parameters;

// What the extractor answers where it does not refuse.
#[derive(Clone, Copy)]
pub enum Extraction {
    // the first unequal pair of strings: its run, its layer, and the axis for 6, the leaf for 4, 0 for 7 and 5
    Unequal { run: u8, layer: u8, number: u8 },
    // the output is filled: the lowest run whose hidden leaves differ, and the first axis, from 1, on which they do
    Extracted { run: u8, axis: u8 },
}

// The first unequal pair of strings of a run.
#[derive(Clone, Copy)]
pub enum Difference {
    // what is hashed to h'
    Response,
    // what is hashed to the digest of this axis, from 1
    Axis(u8),
    // what is hashed to h
    Commitments,
    // what is hashed to the commitment of this leaf
    Leaf(u8),
}

impl Difference {
    // The layer of both strings.
    pub fn layer(self) -> u8
        ensures { result ≡ layer_of self }
    {
        match self {
            Difference::Response => 7,
            Difference::Axis(_) => 6,
            Difference::Commitments => 5,
            Difference::Leaf(_) => 4,
        }
    }

    // The axis for layer 6, the leaf for 4, 0 for 7 and 5.
    pub fn number(self) -> u8
        ensures { result ≡ number_of self }
    {
        match self {
            Difference::Axis(axis) => axis,
            Difference::Leaf(leaf) => leaf,
            Difference::Response => 0,
            Difference::Commitments => 0,
        }
    }
}

// Where the rows of both openings agree: the first unequal pair of layers 5 and 4.
fn compare_leaves(p: Parameters, prefix: &[u8], first: Opened, second: Opened) -> Option<Difference>
    requires { Openings p first second }
    ensures { named result ≡ difference_of
        (leaf_comparison p prefix.now (seen p first.entry) (seen p second.entry)) }
{
    if first_commitment(p, prefix, first, second).is_some() {
        return Some(Difference::Commitments);
    }
    let leaf = first_leaf(p, first, second)?;
    Some(Difference::Leaf(leaf))
}

// The first unequal pair of strings.
pub fn compare(p: Parameters, prefix: &[u8], first: Opened, second: Opened) -> Option<Difference>
    requires { Openings p first second }
    ensures { named result ≡ difference_of
        (comparison p prefix.now (seen p first.entry) (seen p second.entry)) }
{
    let at = states_length(p);
    let end = rows_end(p);
    let rows = &first.made[at..end];
    let others = &second.made[at..end];
    if first_digest(p, prefix, rows, others).is_some() {
        return Some(Difference::Response);
    }
    if let Some(axis) = first_row(p, rows, others) {
        return Some(Difference::Axis(axis + 1));
    }
    compare_leaves(p, prefix, first, second)
}
