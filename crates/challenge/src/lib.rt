// Message 2, the challenge: do the points of each run differ pairwise (document 02, request 02)?
#![tactic(auto)]

ghost use Rattle.std.specs.Prelude.{◌≡◌, ◌+◌, ◌*◌, ◌≤◌, length};
ghost use Rattle.lists.specs.Equal.{eq_list};
ghost use Rattle.parameters.specs.Limits.{Within};
ghost use Rattle.layout.specs.Maxima.{most_runs};
ghost use Rattle.layout.specs.Runs.{messages2_length};
ghost use Rattle.runs.specs.Points.{point_bytes, new_point, distinct_in, distinct_points};

use layout::message2_length;
use parameters::Parameters;

// Are points i and l of a run's message 2 equal?
fn same_point(message2: &[u8], i: usize, l: usize) -> bool
    requires { (i * 4 + 4 ≤ length message2.now) × (l * 4 + 4 ≤ length message2.now) }
    ensures { result ≡ eq_list (point_bytes message2.now i) (point_bytes message2.now l) }
{
    let first = i * 4;
    let second = l * 4;
    lists::equal(&message2[first..first + 4], &message2[second..second + 4])
}

// Is no point before point l of a run's message 2 equal to it?
fn new_point(message2: &[u8], l: usize) -> bool
    requires { l * 4 + 4 ≤ length message2.now }
    ensures { result ≡ new_point message2.now l }
{
    for i in 0..l {
        if same_point(message2, i, l) {
            return false;
        }
    }
    true
}

// Do the t points of a run's message 2 differ pairwise?
fn distinct_in(t: usize, message2: &[u8]) -> bool
    requires { t * 4 ≤ length message2.now }
    ensures { result ≡ distinct_in t message2.now }
{
    for l in 0..t {
        if !new_point(message2, l) {
            return false;
        }
    }
    true
}

// Do the points of each run differ pairwise? Multipliers are not looked at, nor points of different runs held against each other.
pub fn distinct_points(p: Parameters, runs: usize, message2: &[u8]) -> bool
    requires { Within p × (runs ≤ most_runs) × (length message2.now ≡ messages2_length p runs) }
    ensures { result ≡ distinct_points p runs message2.now }
{
    let size = message2_length(p);
    for e in 0..runs {
        let at = e * size;
        if !distinct_in(p.t, &message2[at..at + size]) {
            return false;
        }
    }
    true
}
