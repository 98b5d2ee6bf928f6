// Layers 1 to 5 of an opening: the states of the disclosed leaves, their sums, and h recomputed.
ghost use Rattle.std.specs.Prelude.{◌≡◌};
ghost use Rattle.lists.specs.Equal.{eq_list};
ghost use Rattle.parties.specs.Sums.Front.{filled};
ghost use Rattle.openings.specs.Statement.{digest_in, prefix_in};
ghost use Rattle.openings.specs.Parts.{states_in, hidden_commitment};
ghost use Rattle.openings.specs.From.{digest_from};
ghost use Rattle.openings.specs.Asked.{SumsAsked, LeavesAsked, VerdictAsked};
ghost use Rattle.openings.specs.Checked.{LeavesOpened};

use layout::{
    at_x, prefix_place, rows_end, share_length, siblings_length, states_length, sums_length,
};
use leaves::commitments::digest_commitments;
use leaves::states::opened_states;
use lists::{equal, xor_at};
use parameters::Parameters;
use parties::party_sums;

// The sums over the disclosed leaves. Aux is in leaf n−1 alone, which is in the last party of every axis; where that leaf is
// hidden, aux is empty.
fn sum_leaves(
    p: Parameters,
    prefix: &[u8],
    hidden_leaf: usize,
    aux: &[u8],
    states: &[u8],
    sums: &mut [u8],
)
    requires { SumsAsked p aux.now states.now sums.old }
    ensures { sums.new ≡ filled p prefix.now states.now hidden_leaf aux.now }
{
    party_sums(p, prefix, states, hidden_leaf, sums);
    xor_at(sums, p.axes * share_length(p) + at_x(p), aux);
}

// Fills the states of `opened`, from the sibling seeds in the front of the work area; the sums of the disclosed leaves take
// their place there.
pub fn open_leaves(
    p: Parameters,
    prefix: &[u8],
    hidden_leaf: usize,
    aux: &[u8],
    work: &mut [u8],
    opened: &mut [u8],
)
    requires { LeavesAsked p hidden_leaf aux.now work.old opened.old }
    ensures { LeavesOpened p prefix.now hidden_leaf aux.now work.old opened.old
        work.new opened.new }
{
    let seeds = siblings_length(p);
    let states = states_length(p);
    let sums = sums_length(p);
    opened_states(
        p,
        prefix,
        hidden_leaf,
        &work[..seeds],
        &mut opened[..states],
    );
    sum_leaves(
        p,
        prefix,
        hidden_leaf,
        aux,
        &opened[..states],
        &mut work[..sums],
    );
}

// Is the recomputed h the statement's? The hidden leaf's commitment is the one given, any other's comes from its state.
pub fn commitment_agrees(
    p: Parameters,
    statement: &[u8],
    hidden_leaf: usize,
    aux: &[u8],
    opened: &[u8],
) -> bool
    requires { VerdictAsked p statement.now opened.now }
    ensures { result ≡ eq_list (digest_from p (prefix_in p statement.now) hidden_leaf (hidden_commitment p opened.now)
        aux.now (states_in p opened.now) 32) (digest_in statement.now) }
{
    let at = prefix_place(p);
    let states = states_length(p);
    let rows = rows_end(p);
    let mut h = [0u8; 32];
    digest_commitments(
        p,
        &statement[at..],
        &opened[..states],
        hidden_leaf,
        &opened[rows..],
        aux,
        &mut h,
    );
    equal(&h, &statement[..32])
}
