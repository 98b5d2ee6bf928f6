// The checks that stand before 5 in document 01's order: 1, 2, 14, 4, 8, 9.
ghost use Rattle.std.specs.Prelude.{◌≡◌, ◌&&◌, length};
ghost use Rattle.lists.specs.Checks.{all_true};
ghost use Rattle.lists.specs.Equal.{eq_list};
ghost use Rattle.shake256.specs.Fips.{SHAKE256};
ghost use Rattle.parameters.specs.Limits.{Within};
ghost use Rattle.layout.specs.Runs.{messages2_length};
ghost use Rattle.layout.specs.Runs.Laws.{RunsWithin};
ghost use Rattle.exchange.specs.Values.{key_of};
ghost use Rattle.runs.specs.Points.{distinct_points};
ghost use Rattle.calls.specs.Extractor as spec;
ghost use Rattle.extractor.specs.Early.{all_lengths, below};
ghost use Rattle.extractor.specs.Messages.{messages};

use crate::Transcript;
use answers::{Answer, Refusal, require};
use challenge::distinct_points;
use layout::lent;
use layout::runs::{
    leaves_below, message1_length, messages2_length, messages3_length, messages5_length,
    outputs_length, within,
};
use lists::equal;
use parameters::Parameters;

// Have the messages of an exchange their lengths?
fn message_lengths(p: Parameters, runs: usize, t: Transcript) -> bool
    requires { Within p × RunsWithin runs }
    ensures { result ≡ all_true (spec.message_lengths p runs (messages t.entry)) }
{
    t.message1.len() == message1_length(runs)
        && (t.message2.len() == messages2_length(p, runs)
            && (t.message3.len() == messages3_length(runs)
                && (t.leaves.len() == runs && t.message5.len() == messages5_length(p, t.leaves))))
}

// Have all slices the lengths that the extractor asks?
fn all_lengths(
    p: Parameters,
    runs: usize,
    first: Transcript,
    second: Transcript,
    matrix: &[u8],
    y: &[u8],
    work: &[u8],
    out: &[u8],
) -> bool
    requires { Within p × RunsWithin runs }
    ensures { result ≡ all_lengths p runs (messages first.entry) (messages second.entry) (key_of matrix.now y.now) work.now out.now }
{
    message_lengths(p, runs, first)
        && (message_lengths(p, runs, second)
            && (lent(p, matrix.len(), y.len(), work.len()) && out.len() == outputs_length(p, runs)))
}

// Do the points of each run differ pairwise, in both exchanges?
fn both_distinct(p: Parameters, runs: usize, first2: &[u8], second2: &[u8]) -> bool
    requires { (Within p × RunsWithin runs) × (length first2.now ≡ messages2_length p runs) × (length second2.now ≡ messages2_length p runs) }
    ensures { result ≡ (distinct_points p runs first2.now && distinct_points p runs second2.now) }
{
    distinct_points(p, runs, first2) && distinct_points(p, runs, second2)
}

// Are all leaves of both exchanges below n?
fn both_below(p: Parameters, first4: &[u8], second4: &[u8]) -> bool
    requires { Within p }
    ensures { result ≡ (below p first4.now && below p second4.now) }
{
    leaves_below(p, first4) && leaves_below(p, second4)
}

// Do messages 1, 2 and 3 of both exchanges agree?
fn same_statement(first: Transcript, second: Transcript) -> bool
    ensures { result ≡ (eq_list first.entry.message1.now second.entry.message1.now &&
        (eq_list first.entry.message2.now second.entry.message2.now && eq_list first.entry.message3.now second.entry.message3.now)) }
{
    equal(first.message1, second.message1)
        && (equal(first.message2, second.message2) && equal(first.message3, second.message3))
}

// All checks before 5.
pub fn early_checks(
    p: Parameters,
    runs: usize,
    first: Transcript,
    second: Transcript,
    matrix: &[u8],
    y: &[u8],
    work: &[u8],
    out: &[u8],
) -> Answer
    ensures { result ≡ spec.early_checks SHAKE256 p runs (messages first.entry) (messages second.entry)
        (key_of matrix.now y.now) work.now out.now }
{
    require(within(p, runs), Refusal::Parameter)?;
    require(
        all_lengths(p, runs, first, second, matrix, y, work, out),
        Refusal::Length,
    )?;
    require(
        both_distinct(p, runs, first.message2, second.message2),
        Refusal::SamePoint,
    )?;
    require(both_below(p, first.leaves, second.leaves), Refusal::Leaf)?;
    require(same_statement(first, second), Refusal::Exchange)?;
    require(!equal(first.leaves, second.leaves), Refusal::SameLeaf)
}
