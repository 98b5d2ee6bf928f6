// A leaf (document 01, layers 2 to 4): its state, share and commitment.
// Each string goes on from the start of its layer, which `strings::begin` makes once for all leaves.
#![tactic(auto)]

pub mod commitments;
pub mod states;

ghost use Rattle.std.specs.Prelude.{◌≡◌, ◌++◌, ◌<◌, length, take};
ghost use Rattle.leaves.specs.After.{bytes_after, state_after, commitment_after};
ghost use Rattle.leaves.specs.Shapes.{State, ShareBytes, Commitment};

use layout::is_last;
use parameters::Parameters;
use shake256::Sponge;
use strings::hash;

// The layer byte of the strings that give a leaf's state.
pub const STATES: u8 = 2;

// The layer byte of the strings that give a leaf's share.
pub const SHARES: u8 = 3;

// The layer byte of the strings that give a leaf's commitment.
pub const COMMITMENTS: u8 = 4;

// Fills out with the hash of a leaf's string: what start has absorbed ‖ leaf ‖ body ‖ tail.
fn leaf_hash(start: Sponge, leaf: usize, body: &[u8], tail: &[u8], out: &mut [u8])
    requires { leaf < 256 }
    ensures { out.new ≡ bytes_after start leaf (body.now ++ tail.now) (length out.old) }
{
    let number = [leaf as u8];
    hash(start, &number, body, tail, out);
}

// Fills out with the leaf's state, from its node's seed (layer 2).
pub fn leaf_state(states: Sponge, leaf: usize, seed: &[u8], out: &mut [u8])
    requires { State leaf out.old }
    ensures { out.new ≡ state_after states leaf seed.now }
{
    leaf_hash(states, leaf, seed, &[], out);
}

// Fills out with bytes of layer 3: leaf n−1 takes 8t of them, all others a whole share.
pub fn share_bytes(shares: Sponge, leaf: usize, state: &[u8], out: &mut [u8])
    requires { ShareBytes leaf state.now }
    ensures { out.new ≡ bytes_after shares leaf (take 16 state.now) (length out.old) }
{
    leaf_hash(shares, leaf, &state[..16], &[], out);
}

// Fills out with the leaf's commitment (layer 4; for leaf n−1 with aux).
pub fn leaf_commitment(
    commitments: Sponge,
    p: Parameters,
    leaf: usize,
    state: &[u8],
    aux: &[u8],
    out: &mut [u8],
)
    requires { Commitment p leaf out.old }
    ensures { out.new ≡ commitment_after commitments p leaf state.now aux.now }
{
    if is_last(p, leaf) {
        leaf_hash(commitments, leaf, state, aux, out);
        return;
    }
    leaf_hash(commitments, leaf, state, &[], out);
}
