// Message 5 from the hidden leaf and aux: behind the siblings what the leaf itself gives, and aux unless it is leaf n−1.
// The leaf is one slice: its state of 32 bytes, then its share.
ghost use Rattle.std.specs.Prelude.{◌≡◌, cond, [], ◌++◌, ◌+◌, ◌<◌, length, take};
ghost use Rattle.shake256.specs.Fips.{SHAKE256};
ghost use Rattle.parameters.specs.Limits.{Within};
ghost use Rattle.layout.specs.Layout.{is_last, siblings_length, values_length};
ghost use Rattle.exchange.specs.Leaf.{commitment};
ghost use Rattle.messages.specs.Asked.{LeafAsked, OpeningAsked};
ghost use Rattle.messages.specs.Opening.{leaf_bytes, opening_of};

use bytefield::FieldTables;
use layout::{is_last, siblings_length, values_length};
use leaves::{COMMITMENTS, leaf_commitment};
use lists::put_at;
use parameters::Parameters;
use strings::begin;
use values::announce_leaf;

// out becomes the leaf's commitment, from its state.
fn put_leaf_commitment(
    p: Parameters,
    prefix: &[u8],
    leaf: usize,
    state: &[u8],
    aux: &[u8],
    out: &mut [u8],
)
    requires { Within p × (leaf < 256) × (length out.old ≡ 32) }
    ensures { out.new ≡ commitment SHAKE256 p prefix.now leaf state.now aux.now }
{
    leaf_commitment(begin(COMMITMENTS, prefix), p, leaf, state, aux, out);
}

// out becomes what the leaf itself gives: its commitment, its α and its β.
fn put_leaf(
    p: Parameters,
    prefix: &[u8],
    message2: &[u8],
    leaf: usize,
    matrix: &[u8],
    own: &[u8],
    aux: &[u8],
    out: &mut [u8],
)
    requires { LeafAsked p message2.now leaf matrix.now own.now × (length out.old ≡ 32 + values_length p) }
    ensures { out.new ≡ leaf_bytes p prefix.now message2.now leaf matrix.now
        own.now aux.now }
{
    let tables = FieldTables::new();
    put_leaf_commitment(p, prefix, leaf, &own[..32], aux, &mut out[..32]);
    announce_leaf(p, &own[32..], message2, matrix, &mut out[32..], &tables);
}

// aux goes to index `at` of out, unless the leaf is leaf n−1.
fn put_aux(p: Parameters, leaf: usize, aux: &[u8], at: usize, out: &mut [u8])
    requires { Within p × (length out.old ≡ at + cond (is_last p leaf) 0 (length aux.now)) }
    ensures { out.new ≡ take at out.old ++ cond (is_last p leaf) [] aux.now }
{
    if is_last(p, leaf) {
        return;
    }
    put_at(out, at, aux);
}

// Behind the siblings, with which out starts, goes what the leaf itself gives, and aux unless it is leaf n−1.
pub fn put_opening(
    p: Parameters,
    prefix: &[u8],
    message2: &[u8],
    leaf: usize,
    matrix: &[u8],
    own: &[u8],
    aux: &[u8],
    out: &mut [u8],
)
    requires { OpeningAsked p message2.now leaf matrix.now own.now aux.now out.old }
    ensures { out.new ≡ opening_of p prefix.now message2.now leaf matrix.now
        (take (siblings_length p) out.old) own.now aux.now }
{
    let a = siblings_length(p);
    let e = a + (32 + values_length(p));
    put_leaf(p, prefix, message2, leaf, matrix, own, aux, &mut out[a..e]);
    put_aux(p, leaf, aux, e, out);
}
