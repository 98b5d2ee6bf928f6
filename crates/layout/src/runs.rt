// The messages of several runs (document 02, request 01): how many runs there may be, and how long their messages are.
ghost use Rattle.std.specs.Prelude.{◌≡◌, ◌&&◌, map, ◌≤◌, ltb, length};
ghost use Rattle.lists.specs.Checks.{all_true};
ghost use Rattle.parameters.specs.Limits.{Within, within_limits};
ghost use Rattle.layout.specs.Layout.{leaves as leafCount};
ghost use Rattle.layout.specs.Maxima.{most_runs};
ghost use Rattle.layout.specs.Runs as spec;

use crate::{MOST_RUNS, leaf_count, message2_length, message5_length, output_length};
use parameters::{Parameters, within_limits};

// Is the run count within its limits?
pub fn runs_within(runs: usize) -> bool
    ensures { result ≡ spec.runs_within runs }
{
    (1..=MOST_RUNS).contains(&runs)
}

// Are the parameters and the run count within their limits?
pub fn within(p: Parameters, runs: usize) -> bool
    ensures { result ≡ (within_limits p && spec.runs_within runs) }
{
    within_limits(p) && runs_within(runs)
}

// The length of message 1: salt, and h of each run.
pub fn message1_length(runs: usize) -> usize
    requires { runs ≤ most_runs }
    ensures { result ≡ spec.message1_length runs }
{
    32 + runs * 32
}

// The length of message 2.
pub fn messages2_length(p: Parameters, runs: usize) -> usize
    requires { Within p × (runs ≤ most_runs) }
    ensures { result ≡ spec.messages2_length p runs }
{
    runs * message2_length(p)
}

// The length of message 3.
pub fn messages3_length(runs: usize) -> usize
    requires { runs ≤ most_runs }
    ensures { result ≡ spec.messages3_length runs }
{
    runs * 32
}

// The length of message 5 of the runs that hide these leaves; that of the first runs is where the part of the next one starts.
pub fn messages5_length(p: Parameters, leaves: &[u8]) -> usize
    requires { Within p × (length leaves.now ≤ most_runs) }
    ensures { result ≡ spec.messages5_length p leaves.now }
{
    let mut sum = 0;
    for leaf in leaves {
        sum += message5_length(p, usize::from(*leaf));
    }
    sum
}

// Are all these hidden leaves, one of each run, below n?
pub fn leaves_below(p: Parameters, leaves: &[u8]) -> bool
    requires { Within p }
    ensures { result ≡ all_true (map (λ i. ltb i (leafCount p)) leaves.now) }
{
    let n = leaf_count(p);
    for leaf in leaves {
        if usize::from(*leaf) >= n {
            return false;
        }
    }
    true
}

// The length of the extractor's output.
pub fn outputs_length(p: Parameters, runs: usize) -> usize
    requires { Within p × (runs ≤ most_runs) }
    ensures { result ≡ spec.outputs_length p runs }
{
    runs * output_length(p)
}
