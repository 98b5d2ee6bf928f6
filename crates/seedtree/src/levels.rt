// The seeds below a node, level by level in one buffer.
ghost use Rattle.std.specs.Prelude.{◌≡◌, List, ◌++◌, ℕ, ◌<◌, length, take};
ghost use Rattle.shake256.specs.Fips.{SHAKE256};
ghost use Rattle.lists.specs.Part.{part, put_at};
ghost use Rattle.exchange.specs.Strings.{node_bytes};
ghost use Rattle.exchange.specs.Tree as tree;
ghost use Rattle.strings.specs.Digest.{begun, hashed};
ghost use Rattle.seedtree.specs.Laid.{laid};
ghost use Rattle.seedtree.specs.Levels.{grown};
ghost use Rattle.seedtree.specs.Shapes.{Expand, Grow, Below, Subtree};

use crate::nodes::node_bytes;
use layout::arrays::array;
use lists::put_at;
use shake256::Sponge;
use strings::hash;

// Fills out with the hash of node v's string: what nodes has absorbed ‖ node ‖ seed.
fn node_hash(nodes: Sponge, v: usize, seed: &[u8], out: &mut [u8])
    requires { v < 65536 }
    ensures { out.new ≡ hashed nodes (node_bytes v ++ seed.now) (length out.old) }
{
    let number = node_bytes(v);
    hash(nodes, &number, seed, &[], out);
}

// The children of the seed at index `from`, that of node v, go to index `to`. The seed is read first, since the two parts
// may overlap.
pub fn expand(nodes: Sponge, v: usize, seeds: &mut [u8], from: usize, to: usize)
    requires { Expand v seeds.old from to }
    ensures { (prefix : List ℕ) → nodes ≡ begun 1 prefix → seeds.new
        ≡ put_at seeds.old to (tree.children SHAKE256 prefix v (part seeds.old from 16)) }
{
    let seed = array::<16>(&seeds[from..from + 16]);
    node_hash(nodes, v, &seed, &mut seeds[to..to + 32]);
}

// The first c seeds of the buffer, those of nodes v, v + 1 and so on, become their children, from the last one on.
fn grow(nodes: Sponge, c: usize, v: usize, seeds: &mut [u8])
    requires { Grow c v seeds.old }
    ensures { (prefix : List ℕ) → nodes ≡ begun 1 prefix → seeds.new
        ≡ put_at seeds.old 0 (grown SHAKE256 prefix c v seeds.old) }
{
    for j in (0..c).rev() {
        expand(nodes, v + j, seeds, 16 * j, 32 * j);
    }
}

// The seed at the front of the buffer, that of node v, becomes the seeds of the leaves l levels below.
fn descend(nodes: Sponge, l: usize, v: usize, seeds: &mut [u8])
    requires { Below l v seeds.old }
    ensures { (prefix : List ℕ) → nodes ≡ begun 1 prefix → seeds.new
        ≡ laid (tree.leaf_seeds SHAKE256 prefix l v (take 16 seeds.old)) }
{
    for i in 0..l {
        let count = 1 << i;
        grow(nodes, count, count * v, seeds);
    }
}

// The seeds of the leaves l levels below node v, from its seed.
pub fn below(nodes: Sponge, l: usize, v: usize, seed: &[u8], seeds: &mut [u8])
    requires { Subtree l v seed.now seeds.old }
    ensures { (prefix : List ℕ) → nodes ≡ begun 1 prefix → seeds.new ≡ laid (tree.leaf_seeds SHAKE256 prefix l v seed.now) }
{
    put_at(seeds, 0, seed);
    descend(nodes, l, v, seeds);
}
