// A run of two exchanges: the hidden leaves, and where the run's part of either message 5 lies.
ghost use Rattle.std.specs.Prelude.{◌≡◌};
ghost use Rattle.extractor.specs.Pairs as spec;

use layout::message5_length;
use layout::runs::messages5_length;
use parameters::Parameters;

// The hidden leaf of a run, and its part of message 5.
#[derive(Clone, Copy)]
pub struct Place {
    pub leaf: usize,
    pub start: usize,
    pub end: usize,
}

// The same run of two exchanges.
#[derive(Clone, Copy)]
pub struct Pair {
    pub p: Parameters,
    pub first: Place,
    pub second: Place,
}

// The place of a run, from the hidden leaves of all.
fn place_at(p: Parameters, leaves: &[u8], run: usize) -> Place
    requires { spec.PlaceAsked p leaves.now run }
    ensures { result ≡ spec.place_at p leaves.now run }
{
    let leaf = usize::from(leaves[run]);
    let start = messages5_length(p, &leaves[..run]);
    let end = start + message5_length(p, leaf);
    Place { leaf, start, end }
}

// A run of two exchanges, from their hidden leaves.
pub fn pair_at(p: Parameters, first4: &[u8], second4: &[u8], run: usize) -> Pair
    requires { spec.PlaceAsked p first4.now run × spec.PlaceAsked p second4.now run }
    ensures { result ≡ spec.pair_at p first4.now second4.now run }
{
    let first = place_at(p, first4, run);
    let second = place_at(p, second4, run);
    Pair { p, first, second }
}
