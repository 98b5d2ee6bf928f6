// The prover's session. It holds what later calls need and nothing derived: parameters, run count, x, salt, root, message 2 and its phase.
#![tactic(auto)]

pub mod arguments;
mod checks;
mod held;
mod on_begin;
mod vector;

ghost use Rattle.std.specs.Prelude.{◌≡◌};
ghost use Rattle.shake256.specs.Fips.{SHAKE256};
ghost use Rattle.exchange.specs.Values.{key_of};
ghost use Rattle.calls.specs.Prover as spec;
ghost use Rattle.prover.specs.Held.{held, given};

use crate::arguments::Lengths;
use crate::checks::begin_checks;
use answers::Answer;
use layout::MOST_MESSAGES2;
use layout::runs::messages2_length;
use lists::put_at;
use messages::{every_run, seeds_of};
use parameters::Parameters;
use prover_phase::Phase;

// A session. Of x the first m entries count, of message 2 the first 8t bytes a run.
#[derive(Clone, Copy)]
pub struct Prover {
    pub phase: Phase,
    pub parameters: Parameters,
    pub runs: usize,
    pub x: [u8; 255],
    pub salt: [u8; 32],
    pub root: [u8; 16],
    pub message2: [u8; MOST_MESSAGES2],
}

// A session before its first begin.
pub fn fresh() -> Prover
    ensures { held result ≡ spec.fresh }
{
    let parameters = Parameters {
        m: 0,
        k: 0,
        w: 0,
        axes: 0,
        t: 0,
    };
    Prover {
        phase: Phase::Fresh,
        parameters,
        runs: 0,
        x: [0u8; 255],
        salt: [0u8; 32],
        root: [0u8; 16],
        message2: [0u8; MOST_MESSAGES2],
    }
}

impl Prover {
    // Begins an exchange of this many runs with a key, a salt and a root seed: message 1 is written to out.
    pub fn start(
        &mut self,
        p: Parameters,
        runs: usize,
        x_a: &[u8],
        salt: &[u8],
        root: &[u8],
        matrix: &[u8],
        y: &[u8],
        work: &mut [u8],
        out: &mut [u8],
    ) -> Answer
        ensures { given result self.new out.new work.new ≡ spec.begin SHAKE256 (held self.old) p runs x_a.now salt.now
            root.now (key_of matrix.now y.now) work.old out.old }
    {
        let again = self.repeated(salt, root);
        let others = Lengths {
            salt: salt.len(),
            root: root.len(),
            work: work.len(),
            out: out.len(),
        };
        let mut x = [0u8; 255];
        begin_checks(p, runs, x_a, matrix, y, others, again, &mut x)?;
        *self = on_begin::begun(p, runs, x, salt, root, work, out);
        Ok(())
    }

    // Takes message 2, the points and multipliers of each run: message 3 is written to out.
    pub fn take_points(
        &mut self,
        message2: &[u8],
        matrix: &[u8],
        y: &[u8],
        work: &mut [u8],
        out: &mut [u8],
    ) -> Answer
        ensures { given result self.new out.new work.new ≡ spec.points SHAKE256 (held self.old) message2.now
            (key_of matrix.now y.now) work.old out.old }
    {
        self.points_checks(message2, matrix, y, work, out)?;
        let seeds = seeds_of(&self.salt, &self.root);
        every_run::message3(
            self.parameters,
            &self.x,
            &seeds,
            message2,
            matrix,
            y,
            work,
            out,
        );
        put_at(&mut self.message2, 0, message2);
        self.phase = Phase::Answered;
        Ok(())
    }

    // Takes the leaf of each run that stays hidden: message 5 is written to out, and the exchange is closed.
    pub fn take_leaf(
        &mut self,
        leaves: &[u8],
        matrix: &[u8],
        y: &[u8],
        work: &mut [u8],
        out: &mut [u8],
    ) -> Answer
        ensures { given result self.new out.new work.new ≡ spec.leaf SHAKE256 (held self.old) leaves.now
            (key_of matrix.now y.now) work.old out.old }
    {
        self.leaf_checks(leaves, matrix, y, work, out)?;
        let p = self.parameters;
        let seeds = seeds_of(&self.salt, &self.root);
        let n = messages2_length(p, self.runs);
        let message2 = &self.message2[..n];
        every_run::message5(p, &self.x, &seeds, message2, leaves, matrix, work, out);
        self.phase = Phase::Closed;
        Ok(())
    }

    // The same with the session by value, which is handed back beside the answer.
    pub fn begin(
        mut self,
        p: Parameters,
        runs: usize,
        x_a: &[u8],
        salt: &[u8],
        root: &[u8],
        matrix: &[u8],
        y: &[u8],
        work: &mut [u8],
        out: &mut [u8],
    ) -> (Self, Answer)
        ensures { given result.1 result.0 out.new work.new ≡ spec.begin SHAKE256 (held self) p runs x_a.now salt.now
            root.now (key_of matrix.now y.now) work.old out.old }
    {
        let answer = self.start(p, runs, x_a, salt, root, matrix, y, work, out);
        (self, answer)
    }

    // Likewise `take_points`.
    pub fn points(
        mut self,
        message2: &[u8],
        matrix: &[u8],
        y: &[u8],
        work: &mut [u8],
        out: &mut [u8],
    ) -> (Self, Answer)
        ensures { given result.1 result.0 out.new work.new ≡ spec.points SHAKE256 (held self) message2.now
            (key_of matrix.now y.now) work.old out.old }
    {
        let answer = self.take_points(message2, matrix, y, work, out);
        (self, answer)
    }

    // Likewise `take_leaf`.
    pub fn leaf(
        mut self,
        leaves: &[u8],
        matrix: &[u8],
        y: &[u8],
        work: &mut [u8],
        out: &mut [u8],
    ) -> (Self, Answer)
        ensures { given result.1 result.0 out.new work.new ≡ spec.leaf SHAKE256 (held self) leaves.now
            (key_of matrix.now y.now) work.old out.old }
    {
        let answer = self.take_leaf(leaves, matrix, y, work, out);
        (self, answer)
    }
}
