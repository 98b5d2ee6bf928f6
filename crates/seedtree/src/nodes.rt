// The nodes of the seed tree: a number in bytes, and the way from the root down to a leaf.
ghost use Rattle.std.specs.Prelude.{◌≡◌, ◌≤◌, ◌<◌};
ghost use Rattle.exchange.specs.Strings.{node_bytes};
ghost use Rattle.seedtree.specs.Way as spec;

// The two bytes of a node's number, low byte first.
pub fn node_bytes(v: usize) -> [u8; 2]
    requires { v < 65536 }
    ensures { result ≡ node_bytes v }
{
    (v as u16).to_le_bytes()
}

// A place on the way to a leaf: a node, how many leaves are below it, and which of these the way leads to.
#[derive(Clone, Copy)]
pub struct Way {
    pub node: usize,
    pub leaf: usize,
    pub size: usize,
}

// x where the leaf is in the second half of the leaves below the node, 0 where it is in the first.
fn second(leaf: usize, half: usize, x: usize) -> usize
    ensures { result ≡ spec.second leaf half x }
{
    if leaf < half { 0 } else { x }
}

// The root of a tree of d levels, on the way to a leaf.
pub fn root_way(d: usize, leaf: usize) -> Way
    requires { d ≤ 8 }
    ensures { result ≡ spec.root_way d leaf }
{
    Way {
        node: 1,
        leaf,
        size: 1 << d,
    }
}

impl Way {
    // The half of the children that the way goes on in: 0 or 1.
    pub fn side(self) -> usize
        ensures { result ≡ spec.side self }
    {
        second(self.leaf, self.size / 2, 1)
    }

    // How many leaves stand before those of the child that the way goes on in.
    pub fn skipped(self) -> usize
        ensures { result ≡ spec.skipped self }
    {
        second(self.leaf, self.size / 2, self.size / 2)
    }

    // The child that the way goes on in.
    pub fn next(self) -> Self
        requires { self.node < 65536 }
        ensures { result ≡ spec.next self }
    {
        let side = self.side();
        let skipped = self.skipped();
        Way {
            node: 2 * self.node + side,
            leaf: self.leaf - skipped,
            size: self.size / 2,
        }
    }
}
