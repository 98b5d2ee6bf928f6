// The party that holds the hidden leaf, and what that leaf adds. A number of a leaf that is not below n hides none.
ghost use Rattle.std.specs.Prelude.{◌≡◌, ◌<◌, length};
ghost use Rattle.parameters.specs.Limits.{Within};
ghost use Rattle.axes.specs.Row.{hidden_party, with_hidden};

use layout::{leaf_count, side};
use parameters::Parameters;
use parties::coordinate;

// The party that holds the hidden leaf on an axis, or the number of parties where none is hidden.
pub fn hidden_party(p: Parameters, axis: usize, hidden_leaf: usize) -> usize
    requires { Within p × (axis < p.axes) }
    ensures { result ≡ hidden_party p hidden_leaf axis }
{
    if hidden_leaf < leaf_count(p) {
        return coordinate(p, axis, hidden_leaf);
    }
    side(p)
}

// α and β of the hidden leaf are added to the sums over the parties, where one is hidden.
pub fn add_hidden(p: Parameters, hidden_leaf: usize, hidden_values: &[u8], hats: &mut [u8])
    requires { Within p × (length hidden_values.now ≡ length hats.old) }
    ensures { hats.new ≡ with_hidden p hidden_leaf hidden_values.now hats.old }
{
    if hidden_leaf < leaf_count(p) {
        lists::xor_into(hats, hidden_values);
    }
}
