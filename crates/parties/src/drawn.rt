// A leaf's share as hashed (layer 3), with no aux.
ghost use Rattle.std.specs.Prelude.{◌≡◌, List, ℕ};
ghost use Rattle.lists.specs.Part.{put_at};
ghost use Rattle.parameters.specs.Limits.{Within};
ghost use Rattle.strings.specs.Digest.{begun};
ghost use Rattle.parties.specs.Drawn.{drawn_length, drawn_share};
ghost use Rattle.parties.specs.Shapes.{DrawShare};

use layout::{at_x, is_last, share_length};
use leaves::share_bytes;
use parameters::Parameters;
use shake256::Sponge;

// How many bytes of layer 3 a leaf takes: leaf n−1 takes 8t, for its a and b, all others a whole share.
fn drawn_length(p: Parameters, leaf: usize) -> usize
    requires { Within p }
    ensures { result ≡ drawn_length p leaf }
{
    if is_last(p, leaf) {
        at_x(p)
    } else {
        share_length(p)
    }
}

// Fills the front of out with a leaf's share as hashed, and returns its length.
pub fn draw_share(
    shares: Sponge,
    p: Parameters,
    leaf: usize,
    states: &[u8],
    out: &mut [u8],
) -> usize
    requires { DrawShare p leaf states.now out.old }
    ensures length { result ≡ drawn_length p leaf }
    ensures share { (prefix : List ℕ) → shares ≡ begun 3 prefix
        → out.new ≡ put_at out.old 0 (drawn_share p prefix states.now leaf) }
{
    let size = drawn_length(p, leaf);
    let at = 32 * leaf;
    share_bytes(shares, leaf, &states[at..at + 32], &mut out[..size]);
    size
}
