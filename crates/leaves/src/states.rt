// Layer 2: the states of all leaves, one after another.
ghost use Rattle.std.specs.Prelude.{◌≡◌, ◌+◌, ◌*◌, ◌<◌, drop};
ghost use Rattle.lists.specs.Part.{put_at};
ghost use Rattle.leaves.specs.After.{state_after};
ghost use Rattle.leaves.specs.States.{seed_at, unless_hidden, states_of, states_from};
ghost use Rattle.leaves.specs.Shapes.{States, OpenedStates};

use crate::{STATES, leaf_state};
use layout::arrays::array;
use layout::{leaf_count, levels};
use lists::put_at;
use parameters::Parameters;
use seedtree::opened_seeds;
use shake256::Sponge;
use strings::begin;

// The state of a leaf goes to its place, from its seed in the second half; the hidden leaf's place becomes zeros. The seed is
// read first, since that of leaf n−1 lies where its state goes.
fn put_state(start: Sponge, leaf: usize, n: usize, hidden_leaf: usize, states: &mut [u8])
    requires { States n states.old × (leaf < n) }
    ensures { states.new ≡ put_at states.old (32 * leaf)
        (unless_hidden hidden_leaf leaf (state_after start leaf (seed_at states.old (n + leaf)))) }
{
    let to = 32 * leaf;
    if leaf == hidden_leaf {
        put_at(states, to, &[0; 32]);
        return;
    }
    let from = 16 * (n + leaf);
    let seed = array::<16>(&states[from..from + 16]);
    leaf_state(start, leaf, &seed, &mut states[to..to + 32]);
}

// The second half of `states` holds the seeds of n leaves; the states take their place. No string of the hidden leaf is
// hashed, and its place becomes zeros; a number that is not below n hides none.
pub fn leaf_states(prefix: &[u8], n: usize, hidden_leaf: usize, states: &mut [u8])
    requires { States n states.old }
    ensures { states.new ≡ states_of prefix.now (drop (16 * n) states.old) hidden_leaf n }
{
    let start = begin(STATES, prefix);
    for i in 0..n {
        put_state(start, i, n, hidden_leaf, states);
    }
}

// Fills `states` with the states of all leaves but the hidden one, from its sibling seeds; its own place is zeros.
pub fn opened_states(
    p: Parameters,
    prefix: &[u8],
    hidden_leaf: usize,
    siblings: &[u8],
    states: &mut [u8],
)
    requires { OpenedStates p hidden_leaf siblings.now states.old }
    ensures { states.new ≡ states_from p prefix.now hidden_leaf siblings.now }
{
    let n = leaf_count(p);
    let half = 16 * n;
    opened_seeds(
        prefix,
        levels(p),
        hidden_leaf,
        siblings,
        &mut states[half..],
    );
    leaf_states(prefix, n, hidden_leaf, states);
}
