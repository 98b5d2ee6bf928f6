// The checks of the verifier's calls, in document 01's order.
ghost use Rattle.std.specs.Prelude.{◌≡◌, [], ◌∷◌, ◌≤◌, eqb, length};
ghost use Rattle.lists.specs.Checks.{all_true};
ghost use Rattle.parameters.specs.Limits.{Within};
ghost use Rattle.layout.specs.Maxima.{most_runs};
ghost use Rattle.layout.specs.Runs.{messages5_length};
ghost use Rattle.layout.specs.Lent.{lent_tests};
ghost use Rattle.shake256.specs.Fips.{SHAKE256};
ghost use Rattle.exchange.specs.Values.{key_of};
ghost use Rattle.calls.specs.Verifier as spec;
ghost use Rattle.verifier.specs.Held.{held};

use crate::Verifier;
use answers::{Answer, Refusal, require};
use challenge::distinct_points;
use layout::lent;
use layout::runs::{
    leaves_below, message1_length, messages2_length, messages3_length, messages5_length, within,
};
use parameters::Parameters;
use verifier_phase::Phase;

// Have message 5, matrix, y and work area, of these lengths, the lengths that the opening of runs with these leaves asks?
fn opening_lengths(
    p: Parameters,
    leaves: &[u8],
    message5: usize,
    matrix: usize,
    y: usize,
    work: usize,
) -> bool
    requires { Within p × (length leaves.now ≤ most_runs) }
    ensures { result ≡ all_true (eqb message5 (messages5_length p leaves.now) ∷ lent_tests p matrix y work) }
{
    message5 == messages5_length(p, leaves) && lent(p, matrix, y, work)
}

// The checks of begin.
pub(crate) fn begin_checks(p: Parameters, runs: usize, message1: &[u8]) -> Answer
    ensures { result ≡ spec.begin_checks p runs message1.now }
{
    require(within(p, runs), Refusal::Parameter)?;
    require(message1.len() == message1_length(runs), Refusal::Length)
}

impl Verifier {
    // Are parameters and run count within their limits and the leaves of the runs below n, as after every begin?
    fn intact(&self) -> bool
        ensures { result ≡ spec.intact (held self.now) }
    {
        // A copy, so that the session itself need not lie on the stack while a small call is carried out.
        let leaves = self.leaves;
        let p = self.parameters;
        within(p, self.runs) && leaves_below(p, &leaves[..self.runs])
    }

    // The phase that counts: a session that is not fresh and not intact counts as closed.
    fn standing(&self) -> Phase
        ensures { result ≡ spec.standing (held self.now) }
    {
        if self.phase == Phase::Fresh || self.intact() {
            self.phase
        } else {
            Phase::Closed
        }
    }

    // 12 and 11 for the call of the phase `here`.
    fn state_checks(&self, here: Phase) -> Answer
        ensures { result ≡ spec.after_begin (held self.now) here [] }
    {
        let counted = self.standing();
        require(counted != Phase::Closed, Refusal::Closed)?;
        require(counted == here, Refusal::NotDue)
    }

    // The checks of points.
    pub(crate) fn points_checks(&self, message2: &[u8]) -> Answer
        ensures { result ≡ spec.points_checks (held self.now) message2.now }
    {
        self.state_checks(Phase::Begun)?;
        let p = self.parameters;
        let length = messages2_length(p, self.runs);
        require(message2.len() == length, Refusal::Length)?;
        require(distinct_points(p, self.runs, message2), Refusal::SamePoint)
    }

    // The checks of response.
    pub(crate) fn response_checks(&self, message3: &[u8]) -> Answer
        ensures { result ≡ spec.response_checks (held self.now) message3.now }
    {
        self.state_checks(Phase::Pointed)?;
        let length = messages3_length(self.runs);
        require(message3.len() == length, Refusal::Length)
    }

    // The checks of leaf.
    pub(crate) fn leaf_checks(&self, leaves: &[u8]) -> Answer
        ensures { result ≡ spec.leaf_checks (held self.now) leaves.now }
    {
        self.state_checks(Phase::Responded)?;
        require(leaves.len() == self.runs, Refusal::Length)?;
        require(leaves_below(self.parameters, leaves), Refusal::Leaf)
    }

    // The checks of the opening.
    pub(crate) fn opening_checks(
        &self,
        message5: &[u8],
        matrix: &[u8],
        y: &[u8],
        work: &[u8],
    ) -> Answer
        ensures { result ≡ spec.opening_checks SHAKE256 (held self.now) message5.now (key_of matrix.now y.now)
            work.now }
    {
        self.state_checks(Phase::Chosen)?;
        let leaves = &self.leaves[..self.runs];
        let sized = opening_lengths(
            self.parameters,
            leaves,
            message5.len(),
            matrix.len(),
            y.len(),
            work.len(),
        );
        require(sized, Refusal::Length)
    }
}
