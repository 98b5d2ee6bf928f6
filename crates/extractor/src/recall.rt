// The states of a run's leaves made again, for its part of the output.
ghost use Rattle.std.specs.Prelude.{◌≡◌};
ghost use Rattle.extractor.specs.Recall as spec;

use crate::pairs::{Pair, Place};
use layout::{MOST_OPENED, siblings_length, states_length};
use leaves::states::opened_states;
use lists::put_at;
use parameters::Parameters;

// Fills out with the prefix of a run, from message 1 of its exchange.
fn put_prefix(message1: &[u8], run: u8, out: &mut [u8])
    requires { spec.PrefixAsked message1.now out.old }
    ensures { out.new ≡ spec.prefix_of message1.now run }
{
    let byte = [run];
    put_at(out, 0, &message1[..32]);
    put_at(out, 32, &byte);
}

// Fills the front of `opened` with the states of one opening.
fn recall_states(p: Parameters, prefix: &[u8], place: Place, message5: &[u8], opened: &mut [u8])
    requires { spec.StatesAsked p place message5.now opened.old }
    ensures { spec.StatesMade p prefix.now place message5.now opened.new }
{
    let at = place.start;
    let seeds = siblings_length(p);
    let states = states_length(p);
    opened_states(
        p,
        prefix,
        place.leaf,
        &message5[at..at + seeds],
        &mut opened[..states],
    );
}

// Fills the fronts of both halves of `openings` with the states of both openings of a run.
pub fn recall_run(
    pair: Pair,
    message1: &[u8],
    run: u8,
    first5: &[u8],
    second5: &[u8],
    openings: &mut [u8],
)
    requires { spec.RecallAsked pair message1.now first5.now second5.now openings.old }
    ensures { spec.Holds pair (spec.prefix_of message1.now run) first5.now second5.now
        openings.new }
{
    let p = pair.p;
    let first = pair.first;
    let second = pair.second;
    let mut prefix = [0u8; 33];
    put_prefix(message1, run, &mut prefix);
    recall_states(p, &prefix, first, first5, &mut openings[..MOST_OPENED]);
    recall_states(p, &prefix, second, second5, &mut openings[MOST_OPENED..]);
}
