// Layers 4 and 5: the digest h of all leaf commitments, each recomputed from its leaf's state and absorbed at once.
ghost use Rattle.std.specs.Prelude.{◌≡◌, length};
ghost use Rattle.shake256.specs.Fips.{SHAKE256};
ghost use Rattle.shake256.specs.Stream.{absorbed};
ghost use Rattle.layout.specs.Layout as layout;
ghost use Rattle.exchange.specs.Strings.{string5};
ghost use Rattle.leaves.specs.Commitments.{commitments_after, commitments_of};
ghost use Rattle.leaves.specs.Shapes.{Absorb, Commitments};

use crate::{COMMITMENTS, leaf_commitment};
use layout::leaf_count;
use parameters::Parameters;
use shake256::Sponge;
use strings::{absorb, begin, digest};

// The layer byte of the string of all commitments.
const ALL_COMMITMENTS: u8 = 5;

// The sponge with a leaf's commitment absorbed: the hidden leaf's is given, any other's follows from its state.
fn absorb_commitment(
    all: Sponge,
    start: Sponge,
    p: Parameters,
    leaf: usize,
    states: &[u8],
    hidden_leaf: usize,
    given: &[u8],
    aux: &[u8],
) -> Sponge
    requires { Absorb p leaf states.now }
    ensures { result ≡ absorbed all (commitments_after start p states.now hidden_leaf given.now aux.now leaf) }
{
    if leaf == hidden_leaf {
        return absorb(all, given);
    }
    let at = 32 * leaf;
    let mut commitment = [0u8; 32];
    leaf_commitment(start, p, leaf, &states[at..at + 32], aux, &mut commitment);
    absorb(all, &commitment)
}

// Fills out with the digest of all commitments, from the states of all leaves. The hidden leaf's commitment is given; a
// number that is not below n hides none.
pub fn digest_commitments(
    p: Parameters,
    prefix: &[u8],
    states: &[u8],
    hidden_leaf: usize,
    given: &[u8],
    aux: &[u8],
    out: &mut [u8],
)
    requires { Commitments p states.now }
    ensures { out.new ≡ SHAKE256 (string5 prefix.now
        (commitments_of p prefix.now states.now hidden_leaf given.now aux.now) (layout.leaves p))
        (length out.old) }
{
    let start = begin(COMMITMENTS, prefix);
    let mut all = begin(ALL_COMMITMENTS, prefix);
    let n = leaf_count(p);
    for i in 0..n {
        all = absorb_commitment(all, start, p, i, states, hidden_leaf, given, aux);
    }
    digest(all, out);
}
