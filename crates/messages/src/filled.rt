// The sums over all leaves, aux added.
ghost use Rattle.std.specs.Prelude.{◌≡◌, ◌*◌};
ghost use Rattle.lists.specs.Part.{part};
ghost use Rattle.layout.specs.Layout.{share_length};
ghost use Rattle.parties.specs.Sums.{with_aux};
ghost use Rattle.messages.specs.Asked.{FillAsked, AddAsked};
ghost use Rattle.messages.specs.Auxiliary.{aux_for};
ghost use Rattle.messages.specs.Response.{Filled};
ghost use Rattle.messages.specs.Run.{run_in};

use crate::own_leaves::own_states;
use layout::{LONGEST_AUX, MOST_STATES, at_x, aux_length, leaf_count, share_length, states_length};
use lists::xor_at;
use parameters::Parameters;
use parties::party_sums;

// Fills aux with aux for the vector x, from the sum of all leaves, and adds it into that sum.
fn add_aux(p: Parameters, x: &[u8], sums: &mut [u8], aux: &mut [u8])
    requires { AddAsked p x.now sums.old aux.old }
    ensures { (aux.new ≡ aux_for p x.now (part sums.old (p.axes * share_length p) (share_length p)))
        × (sums.new ≡ with_aux p sums.old aux.new) }
{
    let size = share_length(p);
    let at = p.axes * size;
    crate::auxiliary::aux(p, x, &sums[at..at + size], aux);
    xor_at(sums, at + at_x(p), aux);
}

// Fills the sums over all leaves, aux added.
pub fn fill(p: Parameters, x: &[u8], run: &[u8], sums: &mut [u8])
    requires { FillAsked p x.now run.now sums.old }
    ensures { Filled p x.now (run_in run.now) sums.new }
{
    let mut states = [0u8; MOST_STATES];
    let mut aux = [0u8; LONGEST_AUX];
    let n = leaf_count(p);
    let size = states_length(p);
    let length = aux_length(p);
    own_states(p, run, &mut states[..size]);
    party_sums(p, &run[16..], &states[..size], n, sums);
    add_aux(p, x, sums, &mut aux[..length]);
}
