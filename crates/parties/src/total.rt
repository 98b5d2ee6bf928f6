// The sum of all leaves' shares as hashed.
ghost use Rattle.std.specs.Prelude.{◌≡◌, true, not, cond, List, ℕ, eqb};
ghost use Rattle.lists.specs.Part.{put_at};
ghost use Rattle.lists.specs.Sum.{xor_list};
ghost use Rattle.layout.specs.Layout.{leaves};
ghost use Rattle.exchange.specs.Parties.{total};
ghost use Rattle.strings.specs.Digest.{begun};
ghost use Rattle.parties.specs.Drawn.{drawn_share};
ghost use Rattle.parties.specs.Shapes.{AddDrawn, ShareSum};

use crate::drawn::draw_share;
use layout::{LONGEST_SHARE, leaf_count};
use leaves::SHARES;
use lists::{xor_into, zero_front};
use parameters::Parameters;
use shake256::Sponge;
use strings::begin;

// A leaf's share as hashed, drawn into the front of `share`, is added to `sum`.
fn add_drawn(
    shares: Sponge,
    p: Parameters,
    leaf: usize,
    states: &[u8],
    share: &mut [u8],
    sum: &mut [u8],
)
    requires { AddDrawn p leaf states.now share.old sum.old }
    ensures { (prefix : List ℕ) → shares ≡ begun 3 prefix
        → (share.new ≡ put_at share.old 0 (drawn_share p prefix states.now leaf))
        × (sum.new ≡ xor_list sum.old (drawn_share p prefix states.now leaf)) }
{
    let size = draw_share(shares, p, leaf, states, share);
    xor_into(sum, &share[..size]);
}

// The same, unless the leaf is the hidden one. `add_disclosed` has this shape with other sums; one function for both would take
// a closure over the sums, whose contract is longer than both bodies.
fn add_other(
    shares: Sponge,
    p: Parameters,
    leaf: usize,
    states: &[u8],
    hidden_leaf: usize,
    share: &mut [u8],
    sum: &mut [u8],
)
    requires { AddDrawn p leaf states.now share.old sum.old }
    ensures { (prefix : List ℕ) → shares ≡ begun 3 prefix → sum.new
        ≡ cond (eqb leaf hidden_leaf) sum.old (xor_list sum.old (drawn_share p prefix states.now leaf)) }
{
    if leaf == hidden_leaf {
        return;
    }
    add_drawn(shares, p, leaf, states, share, sum);
}

// Fills out with the sum of the leaves' shares as hashed, but for the hidden leaf; a number that is no leaf's hides none.
pub fn share_sum(p: Parameters, prefix: &[u8], states: &[u8], hidden_leaf: usize, out: &mut [u8])
    requires { ShareSum p states.now out.old }
    ensures { out.new
        ≡ total p (λ i. not (eqb i hidden_leaf)) (drawn_share p prefix.now states.now) (leaves p) }
{
    let shares = begin(SHARES, prefix);
    let mut share = [0u8; LONGEST_SHARE];
    let n = leaf_count(p);
    let size = out.len();
    zero_front(out, size);
    for i in 0..n {
        add_other(shares, p, i, states, hidden_leaf, &mut share, out);
    }
}

// Fills the front of `share` with a leaf's share as hashed, and `sum` with the sum of all leaves' shares as hashed: each share is
// drawn once.
pub fn share_and_sum(
    p: Parameters,
    prefix: &[u8],
    states: &[u8],
    leaf: usize,
    share: &mut [u8],
    sum: &mut [u8],
)
    requires { AddDrawn p leaf states.now share.old sum.old }
    ensures { (share.new ≡ put_at share.old 0 (drawn_share p prefix.now states.now leaf))
        × (sum.new ≡ total p (λ i. true) (drawn_share p prefix.now states.now) (leaves p)) }
{
    share_sum(p, prefix, states, leaf, sum);
    add_drawn(begin(SHARES, prefix), p, leaf, states, share, sum);
}
