// The checks of the calls, in document 01's order.
ghost use Rattle.std.specs.Prelude.{◌≡◌, List, ℕ, Ok, replicate};
ghost use Rattle.shake256.specs.Fips.{SHAKE256};
ghost use Rattle.relation.specs.Key.{vector_of};
ghost use Rattle.exchange.specs.Values.{key_of};
ghost use Rattle.calls.specs.Prover as spec;
ghost use Rattle.calls.specs.Prover.{Prover as Session};
ghost use Rattle.prover.specs.Arguments.{lengths_of};
ghost use Rattle.prover.specs.Held.{held};

use crate::Prover;
use crate::arguments::{Lengths, begin_lengths, leaf_lengths, points_lengths};
use crate::vector::weigh;
use answers::{Answer, Refusal, require};
use challenge::distinct_points;
use layout::runs::{leaves_below, within};
use parameters::Parameters;
use prover_phase::Phase;

// The checks of begin, where `again` says that salt and root are those of the exchange held. Where they pass, x, which came as
// 255 zeros, has the key's vector at its front.
pub(crate) fn begin_checks(
    p: Parameters,
    runs: usize,
    x_a: &[u8],
    matrix: &[u8],
    y: &[u8],
    others: Lengths,
    again: bool,
    x: &mut [u8],
) -> Answer
    requires { x.old ≡ replicate 255 0 }
    ensures value { (s : Session) (salt root work out : List ℕ) → others ≡ lengths_of salt root work out → again ≡ spec.repeated s salt root
        → result ≡ spec.begin_checks SHAKE256 s p runs x_a.now salt root (key_of matrix.now y.now) work out }
    ensures vector { result ≡ Ok tt → x.new ≡ spec.padded 255 (vector_of matrix.now y.now x_a.now) }
{
    require(within(p, runs), Refusal::Parameter)?;
    require(
        begin_lengths(p, runs, x_a.len(), matrix.len(), y.len(), others),
        Refusal::Length,
    )?;
    require(weigh(p, x_a, matrix, y, x), Refusal::Weight)?;
    require(!again, Refusal::Repeated)
}

impl Prover {
    // Are salt and root both those of the exchange held, open or closed?
    pub(crate) fn repeated(&self, salt: &[u8], root: &[u8]) -> bool
        ensures { result ≡ spec.repeated (held self.now) salt.now root.now }
    {
        // Copies, so that the session itself need not lie on the stack while begin makes message 1.
        let held_salt = self.salt;
        let held_root = self.root;
        !self.is_fresh() && lists::equal(salt, &held_salt) && lists::equal(root, &held_root)
    }

    // The checks of points.
    pub(crate) fn points_checks(
        &self,
        message2: &[u8],
        matrix: &[u8],
        y: &[u8],
        work: &[u8],
        out: &[u8],
    ) -> Answer
        ensures { result ≡ spec.points_checks SHAKE256 (held self.now) message2.now (key_of matrix.now y.now)
            work.now out.now }
    {
        let phase = self.standing();
        let p = self.parameters;
        let runs = self.runs;
        require(phase != Phase::Closed, Refusal::Closed)?;
        require(phase == Phase::Begun, Refusal::NotDue)?;
        require(
            points_lengths(
                p,
                runs,
                message2.len(),
                matrix.len(),
                y.len(),
                work.len(),
                out.len(),
            ),
            Refusal::Length,
        )?;
        require(distinct_points(p, runs, message2), Refusal::SamePoint)
    }

    // The checks of leaf.
    pub(crate) fn leaf_checks(
        &self,
        leaves: &[u8],
        matrix: &[u8],
        y: &[u8],
        work: &[u8],
        out: &[u8],
    ) -> Answer
        ensures { result ≡ spec.leaf_checks SHAKE256 (held self.now) leaves.now (key_of matrix.now y.now) work.now
            out.now }
    {
        let phase = self.standing();
        let p = self.parameters;
        let runs = self.runs;
        require(phase != Phase::Closed, Refusal::Closed)?;
        require(phase == Phase::Answered, Refusal::NotDue)?;
        require(
            leaf_lengths(
                p,
                runs,
                leaves,
                matrix.len(),
                y.len(),
                work.len(),
                out.len(),
            ),
            Refusal::Length,
        )?;
        require(leaves_below(p, leaves), Refusal::Leaf)
    }
}
