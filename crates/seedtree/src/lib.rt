// The seed tree (document 01, layer 1): all leaf seeds from the root, the siblings of a leaf, all leaf seeds but one.
#![tactic(auto)]

mod levels;
mod nodes;

ghost use Rattle.std.specs.Prelude.{◌≡◌, List, [], length, get_or, ℕ, ◌+◌, ◌-◌, ◌*◌, ◌/◌};
ghost use Rattle.shake256.specs.Fips.{SHAKE256};
ghost use Rattle.lists.specs.Part.{put_at};
ghost use Rattle.exchange.specs.Tree as tree;
ghost use Rattle.strings.specs.Digest.{begun};
ghost use Rattle.seedtree.specs.Laid.{laid};
ghost use Rattle.seedtree.specs.Way.{side, skipped};
ghost use Rattle.seedtree.specs.Shapes.{Tree, Siblings, Opened, Beside};

use crate::levels::{below, expand};
use crate::nodes::{Way, root_way};
use layout::arrays::array;
use lists::put_at;
use shake256::Sponge;
use strings::begin;

// The layer byte of the strings that give a node's children.
const NODES: u8 = 1;

// Fills `seeds` with the seeds of the leaves of a tree of d levels, from the root's seed.
pub fn leaf_seeds(prefix: &[u8], d: usize, root: &[u8], seeds: &mut [u8])
    requires { Tree d root.now seeds.old }
    ensures { seeds.new ≡ laid (tree.leaf_seeds SHAKE256 prefix.now d 1 root.now) }
{
    let nodes = begin(NODES, prefix);
    below(nodes, d, 1, root, seeds);
}

// Fills out with the sibling seeds of a leaf, from the root side down, and returns the leaf's own seed. Only the nodes on the
// way to the leaf are expanded.
pub fn sibling_seeds(prefix: &[u8], d: usize, root: &[u8], leaf: usize, out: &mut [u8]) -> [u8; 16]
    requires { Siblings d leaf root.now out.old }
    ensures siblings { out.new ≡ tree.sibling_seeds SHAKE256 prefix.now d 1 root.now leaf }
    ensures own { result ≡ get_or (tree.leaf_seeds SHAKE256 prefix.now d 1 root.now) leaf [] }
{
    let nodes = begin(NODES, prefix);
    let mut way = root_way(d, leaf);
    let mut pair = [0u8; 32];
    put_at(&mut pair, 0, root);
    let mut own = 0;
    for k in 0..d {
        expand(nodes, way.node, &mut pair, own, 0);
        own = 16 * way.side();
        let other = 16 - own;
        put_at(out, 16 * k, &pair[other..other + 16]);
        way = way.next();
    }
    array(&pair[own..own + 16])
}

// The seeds of the leaves below the sibling of the way's next node, l levels down, go beside the way, whose leaves start
// at index `at`.
fn open_sibling(nodes: Sponge, way: Way, l: usize, sibling: &[u8], seeds: &mut [u8], at: usize)
    requires { Beside way l sibling.now seeds.old at }
    ensures { (prefix : List ℕ) → nodes ≡ begun 1 prefix → seeds.new
        ≡ put_at seeds.old (at + 16 * (way.size / 2 - skipped way))
        (laid (tree.leaf_seeds SHAKE256 prefix l (2 * way.node + (1 - side way)) sibling.now)) }
{
    let half = way.size / 2;
    let from = at + 16 * (half - way.skipped());
    let to = from + 16 * half;
    below(
        nodes,
        l,
        2 * way.node + (1 - way.side()),
        sibling,
        &mut seeds[from..to],
    );
}

// Fills `seeds` with the seeds of all leaves but one, from that leaf's sibling seeds; its own place is zeros. Only the
// nodes below the siblings are expanded.
pub fn opened_seeds(prefix: &[u8], d: usize, leaf: usize, siblings: &[u8], seeds: &mut [u8])
    requires { Opened d leaf siblings.now seeds.old }
    ensures { seeds.new ≡ laid (tree.opened_seeds SHAKE256 prefix.now d 1 leaf siblings.now) }
{
    let nodes = begin(NODES, prefix);
    let mut way = root_way(d, leaf);
    let mut at = 0;
    for k in 0..d {
        let first = 16 * k;
        open_sibling(
            nodes,
            way,
            d - (k + 1),
            &siblings[first..first + 16],
            seeds,
            at,
        );
        at += 16 * way.skipped();
        way = way.next();
    }
    put_at(seeds, at, &[0; 16]);
}
