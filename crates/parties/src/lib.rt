// Sums over the leaves (document 01, 'Parties'): of all leaves, and on every axis of all parties but the last one, one sum after
// another in the front of the work area (`layout::sum_index`). Axes and parties count from 0.
#![tactic(auto)]

mod drawn;
pub mod total;

ghost use Rattle.std.specs.Prelude.{◌≡◌, cond, List, ℕ, ◌<◌, eqb};
ghost use Rattle.parameters.specs.Limits.{Within};
ghost use Rattle.layout.specs.Layout.{digit};
ghost use Rattle.strings.specs.Digest.{begun};
ghost use Rattle.parties.specs.Sums as spec;
ghost use Rattle.parties.specs.Drawn.{drawn_share};
ghost use Rattle.parties.specs.Shapes.{AddLeaf, AddDisclosed, PartySums};

use crate::drawn::draw_share;
use layout::{LONGEST_SHARE, bits, leaf_count, others, share_length, sum_index};
use leaves::SHARES;
use lists::{xor_at, zero_front};
use parameters::Parameters;
use shake256::Sponge;
use strings::begin;

// The party of a leaf on an axis.
pub fn coordinate(p: Parameters, axis: usize, leaf: usize) -> usize
    requires { Within p × (axis < p.axes) }
    ensures { result ≡ digit p axis leaf }
{
    (leaf >> (bits(p) * axis)) & others(p)
}

// The share is added into the sum of the leaf's party on one axis, unless that is the last party.
fn add_to_party(p: Parameters, axis: usize, leaf: usize, share: &[u8], sums: &mut [u8])
    requires { AddLeaf p share.now sums.old × (axis < p.axes) }
    ensures { sums.new ≡ spec.added_on p axis leaf share.now sums.old }
{
    let c = coordinate(p, axis, leaf);
    if c < others(p) {
        xor_at(sums, sum_index(p, axis, c) * share_length(p), share);
    }
}

// The share is added into all sums that the leaf is in.
fn add_leaf(p: Parameters, leaf: usize, share: &[u8], sums: &mut [u8])
    requires { AddLeaf p share.now sums.old }
    ensures { sums.new ≡ spec.added_leaf p leaf share.now sums.old }
{
    for axis in 0..p.axes {
        add_to_party(p, axis, leaf, share, sums);
    }
    xor_at(sums, p.axes * share_length(p), share);
}

// A leaf's share as hashed, drawn into the front of `share`, is added into all sums that the leaf is in, unless it is the
// hidden one.
fn add_disclosed(
    shares: Sponge,
    p: Parameters,
    leaf: usize,
    states: &[u8],
    hidden_leaf: usize,
    share: &mut [u8],
    sums: &mut [u8],
)
    requires { AddDisclosed p leaf states.now share.old sums.old }
    ensures { (prefix : List ℕ) → shares ≡ begun 3 prefix → sums.new ≡ cond (eqb leaf hidden_leaf) sums.old
        (spec.added_leaf p leaf (drawn_share p prefix states.now leaf) sums.old) }
{
    if leaf == hidden_leaf {
        return;
    }
    let size = draw_share(shares, p, leaf, states, share);
    add_leaf(p, leaf, &share[..size], sums);
}

// Fills the front of the work area with the sums of the leaves' shares as hashed, but for the hidden leaf; a number that is no
// leaf's hides none.
pub fn party_sums(p: Parameters, prefix: &[u8], states: &[u8], hidden_leaf: usize, sums: &mut [u8])
    requires { PartySums p states.now sums.old }
    ensures { sums.new ≡ spec.party_sums p (drawn_share p prefix.now states.now) hidden_leaf }
{
    let shares = begin(SHARES, prefix);
    let mut share = [0u8; LONGEST_SHARE];
    let n = leaf_count(p);
    let size = sums.len();
    zero_front(sums, size);
    for i in 0..n {
        add_disclosed(shares, p, i, states, hidden_leaf, &mut share, sums);
    }
}
