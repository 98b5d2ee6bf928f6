// What the prover has of its leaves: all states, and aux.
ghost use Rattle.std.specs.Prelude.{◌≡◌, length, take};
ghost use Rattle.lists.specs.Zeroed.{zeroed};
ghost use Rattle.shake256.specs.Fips.{SHAKE256};
ghost use Rattle.layout.specs.Layout.{aux_length, states_length, work_length};
ghost use Rattle.exchange.specs.Messages.{own_aux};
ghost use Rattle.messages.specs.Asked.{Arrays, StatesAsked};
ghost use Rattle.messages.specs.Own.{own_states};
ghost use Rattle.messages.specs.Run.{run_in};

use layout::{leaf_count, levels, share_length, work_length};
use leaves::states::leaf_states;
use lists::zero_front;
use parameters::Parameters;
use parties::total::share_sum;
use seedtree::leaf_seeds;

// Fills `states` with the states of all leaves, from the root's seed.
pub fn own_states(p: Parameters, run: &[u8], states: &mut [u8])
    requires { StatesAsked p run.now states.old }
    ensures { states.new ≡ own_states p (run_in run.now) }
{
    let n = leaf_count(p);
    let d = levels(p);
    let half = 16 * n;
    leaf_seeds(&run[16..], d, &run[..16], &mut states[half..]);
    leaf_states(&run[16..], n, n, states);
}

// Fills `states` with the states of all leaves and aux with aux; the named length of the work area ends as zeros.
pub fn own_leaves(
    p: Parameters,
    x: &[u8],
    run: &[u8],
    work: &mut [u8],
    states: &mut [u8],
    aux: &mut [u8],
)
    requires { Arrays p x.now run.now work.old × (length states.old ≡ states_length p) × (length aux.old ≡ aux_length p) }
    ensures { (states.new ≡ own_states p (run_in run.now))
        × (aux.new ≡ own_aux SHAKE256 p (take p.m x.now) (run_in run.now))
        × (work.new ≡ zeroed (work_length p) work.old) }
{
    let m = p.m;
    let n = leaf_count(p);
    let size = share_length(p);
    let all = work_length(p);
    own_states(p, run, states);
    share_sum(p, &run[16..], states, n, &mut work[..size]);
    crate::auxiliary::aux(p, &x[..m], &work[..size], aux);
    zero_front(work, all);
}
