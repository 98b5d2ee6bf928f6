// The leaf that an opening hides: its sibling seeds, its state and its share, and aux. Every string is hashed once: the states of
// all other leaves come from the siblings.
// The leaf is one slice: its state of 32 bytes, then its share.
ghost use Rattle.std.specs.Prelude.{◌≡◌, cond, ◌++◌, ◌+◌, ◌<◌, length, take};
ghost use Rattle.lists.specs.Part.{put_at};
ghost use Rattle.lists.specs.Zeroed.{zeroed};
ghost use Rattle.shake256.specs.Fips.{SHAKE256};
ghost use Rattle.layout.specs.Layout.{is_last, at_x, work_length};
ghost use Rattle.exchange.specs.Messages.{own_state, own_share, own_aux};
ghost use Rattle.messages.specs.Asked.{Arrays, WayAsked, DrawAsked, HiddenAsked, CompleteAsked};
ghost use Rattle.messages.specs.Own.{own_states, sum_of};
ghost use Rattle.messages.specs.HiddenLeaf.{siblings_of, drawn_leaf};
ghost use Rattle.messages.specs.Run.{run_in};

use layout::{MOST_STATES, at_x, is_last, levels, share_length, states_length, work_length};
use leaves::states::opened_states;
use leaves::{STATES, leaf_state};
use lists::{put_at, zero_front};
use parameters::Parameters;
use parties::total::share_and_sum;
use seedtree::sibling_seeds;
use strings::begin;

// Fills `siblings` with the sibling seeds of the leaf, and `states` with the states of all leaves: the leaf's own from its seed,
// all others from the siblings.
fn way_states(p: Parameters, run: &[u8], leaf: usize, siblings: &mut [u8], states: &mut [u8])
    requires { WayAsked p run.now leaf siblings.old states.old }
    ensures { (siblings.new ≡ siblings_of p (run_in run.now) leaf)
        × (states.new ≡ own_states p (run_in run.now)) }
{
    let d = levels(p);
    let at = 32 * leaf;
    let seed = sibling_seeds(&run[16..], d, &run[..16], leaf, siblings);
    opened_states(p, &run[16..], leaf, siblings, states);
    let start = begin(STATES, &run[16..]);
    leaf_state(start, leaf, &seed, &mut states[at..at + 32]);
}

// Fills `siblings` with the sibling seeds of the leaf, the front of `own` with its state and its share as hashed, and `sum` with
// the sum of all shares as hashed.
fn draw_leaf(
    p: Parameters,
    run: &[u8],
    leaf: usize,
    siblings: &mut [u8],
    own: &mut [u8],
    sum: &mut [u8],
)
    requires { DrawAsked p run.now leaf siblings.old own.old sum.old }
    ensures { (siblings.new ≡ siblings_of p (run_in run.now) leaf)
        × (own.new ≡ put_at own.old 0 (drawn_leaf p (run_in run.now) leaf))
        × (sum.new ≡ sum_of p (run_in run.now).prefix (own_states p (run_in run.now))) }
{
    let mut states = [0u8; MOST_STATES];
    let size = states_length(p);
    let at = 32 * leaf;
    way_states(p, run, leaf, siblings, &mut states[..size]);
    put_at(own, 0, &states[at..at + 32]);
    share_and_sum(p, &run[16..], &states[..size], leaf, &mut own[32..], sum);
}

// Aux goes behind the leaf's share as hashed where it is leaf n−1.
fn complete(p: Parameters, leaf: usize, aux: &[u8], own: &mut [u8])
    requires { CompleteAsked p aux.now own.old }
    ensures { own.new ≡ cond (is_last p leaf) (put_at own.old (32 + at_x p) aux.now) own.old }
{
    if !is_last(p, leaf) {
        return;
    }
    put_at(own, 32 + at_x(p), aux);
}

// Fills `siblings` with the sibling seeds of the leaf, `own` with its state and share, and aux with aux; the named length of the
// work area ends as zeros.
pub fn hidden_leaf(
    p: Parameters,
    x: &[u8],
    run: &[u8],
    leaf: usize,
    work: &mut [u8],
    siblings: &mut [u8],
    own: &mut [u8],
    aux: &mut [u8],
)
    requires { Arrays p x.now run.now work.old × HiddenAsked p leaf siblings.old own.old aux.old }
    ensures { (siblings.new ≡ siblings_of p (run_in run.now) leaf)
        × (own.new ≡ own_state SHAKE256 p (take p.m x.now) (run_in run.now) leaf
        ++ own_share SHAKE256 p (take p.m x.now) (run_in run.now) leaf)
        × (aux.new ≡ own_aux SHAKE256 p (take p.m x.now) (run_in run.now))
        × (work.new ≡ zeroed (work_length p) work.old) }
{
    let m = p.m;
    let size = share_length(p);
    let all = work_length(p);
    draw_leaf(p, run, leaf, siblings, own, &mut work[..size]);
    crate::auxiliary::aux(p, &x[..m], &work[..size], aux);
    complete(p, leaf, aux, own);
    zero_front(work, all);
}
