// The output of all runs: the part of each run whose hidden leaves differ, from the last run down.
ghost use Rattle.std.specs.Prelude.{◌≡◌};
ghost use Rattle.extractor.specs.Recall.{prefix_of};
ghost use Rattle.extractor.specs.Outputs as spec;

use crate::Transcript;
use crate::opened::opened_at;
use crate::output::write_output;
use crate::pairs::{Pair, pair_at};
use crate::recall::recall_run;
use layout::{MOST_OPENED, output_length};
use parameters::Parameters;

// Fills out with the output of a run, from the states in the halves of `openings`; where the hidden leaves agree it stays.
fn write_run(pair: Pair, first5: &[u8], second5: &[u8], openings: &[u8], out: &mut [u8])
    requires { spec.WriteAsked pair first5.now second5.now openings.now out.old }
    ensures { out.new ≡ spec.part_in pair first5.now second5.now openings.now out.old }
{
    let Pair { p, first, second } = pair;
    if first.leaf == second.leaf {
        return;
    }
    let one = opened_at(p, first, first5, &openings[..MOST_OPENED]);
    let two = opened_at(p, second, second5, &openings[MOST_OPENED..]);
    write_output(p, one, two, out);
}

// The same, from the messages.
fn write_recalled(
    pair: Pair,
    message1: &[u8],
    run: u8,
    first5: &[u8],
    second5: &[u8],
    openings: &mut [u8],
    out: &mut [u8],
)
    requires { spec.RecalledAsked pair message1.now first5.now second5.now openings.old out.old }
    ensures { out.new ≡ spec.part_of pair (prefix_of message1.now run) first5.now second5.now
        out.old }
{
    if pair.first.leaf == pair.second.leaf {
        return;
    }
    recall_run(pair, message1, run, first5, second5, openings);
    write_run(pair, first5, second5, openings, out);
}

// Fills the part of every run but the last whose hidden leaves differ.
fn write_earlier(
    p: Parameters,
    first: Transcript,
    second: Transcript,
    openings: &mut [u8],
    out: &mut [u8],
)
    requires { spec.EarlierAsked p first.message1.now first.leaves.now first.message5.now second.leaves.now second.message5.now
        openings.old out.old }
    ensures { spec.Finishes p first.entry.message1.now first.entry.leaves.now first.entry.message5.now second.entry.leaves.now
        second.entry.message5.now out.old out.new }
{
    let size = output_length(p);
    for run in (0..first.leaves.len() - 1).rev() {
        let at = run * size;
        let pair = pair_at(p, first.leaves, second.leaves, run);
        write_recalled(
            pair,
            first.message1,
            run as u8,
            first.message5,
            second.message5,
            openings,
            &mut out[at..at + size],
        );
    }
}

// Fills the part of every run whose hidden leaves differ; `openings` holds the states of the last run.
pub fn write_outputs(
    p: Parameters,
    first: Transcript,
    second: Transcript,
    openings: &mut [u8],
    out: &mut [u8],
)
    requires { spec.OutputsAsked p first.message1.now first.leaves.now first.message5.now second.leaves.now second.message5.now
        openings.old out.old }
    ensures { out.new ≡ spec.written p first.entry.message1.now first.entry.leaves.now first.entry.message5.now
        second.entry.leaves.now second.entry.message5.now out.old }
{
    let size = output_length(p);
    let run = first.leaves.len() - 1;
    let at = run * size;
    let last = pair_at(p, first.leaves, second.leaves, run);
    write_run(
        last,
        first.message5,
        second.message5,
        openings,
        &mut out[at..at + size],
    );
    write_earlier(p, first, second, openings, out);
}
