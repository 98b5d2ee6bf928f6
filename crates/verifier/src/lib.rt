// The verifier's session. It holds the messages received so far, the hidden leaves that it chose, and its phase.
#![tactic(auto)]

mod checks;
mod judge;

ghost use Rattle.std.specs.Prelude.{◌≡◌};
ghost use Rattle.shake256.specs.Fips.{SHAKE256};
ghost use Rattle.exchange.specs.Values.{key_of};
ghost use Rattle.calls.specs.Verifier as spec;
ghost use Rattle.verifier.specs.Held.{held, given, judged};

use answers::Answer;
use checks::begin_checks;
use judge::judge;
use layout::MOST_RUNS;
use lists::put_at;
use parameters::Parameters;
use verifier_phase::Phase;

// The bytes of messages 1, 2 and 3, each in as many as it can have, and where messages 2 and 3 start among them.
pub const HELD: usize = 4128;

pub const MESSAGE2_PLACE: usize = 1056;

pub const MESSAGE3_PLACE: usize = 3104;

// A session. Each message stands at the front of its place; so do the leaves, one of each run.
#[derive(Clone, Copy)]
pub struct Verifier {
    pub phase: Phase,
    pub parameters: Parameters,
    pub runs: usize,
    pub messages: [u8; HELD],
    pub leaves: [u8; MOST_RUNS],
}

// A session before its first begin.
pub fn fresh() -> Verifier
    ensures { held result ≡ spec.fresh }
{
    let parameters = Parameters {
        m: 0,
        k: 0,
        w: 0,
        axes: 0,
        t: 0,
    };
    Verifier {
        phase: Phase::Fresh,
        parameters,
        runs: 0,
        messages: [0u8; HELD],
        leaves: [0u8; MOST_RUNS],
    }
}

impl Verifier {
    // Begins an exchange of so many runs with its parameters and message 1; the exchange held is dropped.
    pub fn start(&mut self, p: Parameters, runs: usize, message1: &[u8]) -> Answer
        ensures { given result self.new ≡ spec.begin (held self.old) p runs message1.now }
    {
        begin_checks(p, runs, message1)?;
        self.phase = Phase::Begun;
        self.parameters = p;
        self.runs = runs;
        self.messages = [0u8; HELD];
        put_at(&mut self.messages, 0, message1);
        self.leaves = [0u8; MOST_RUNS];
        Ok(())
    }

    // Takes message 2, which the verifier sends: points and multipliers of each run.
    pub fn take_points(&mut self, message2: &[u8]) -> Answer
        ensures { given result self.new ≡ spec.points (held self.old) message2.now }
    {
        self.points_checks(message2)?;
        put_at(&mut self.messages, MESSAGE2_PLACE, message2);
        self.phase = Phase::Pointed;
        Ok(())
    }

    // Takes message 3, the response digest of each run.
    pub fn take_response(&mut self, message3: &[u8]) -> Answer
        ensures { given result self.new ≡ spec.response (held self.old) message3.now }
    {
        self.response_checks(message3)?;
        put_at(&mut self.messages, MESSAGE3_PLACE, message3);
        self.phase = Phase::Responded;
        Ok(())
    }

    // Takes message 4, the leaf that is to stay hidden in each run.
    pub fn take_leaf(&mut self, leaves: &[u8]) -> Answer
        ensures { given result self.new ≡ spec.leaf (held self.old) leaves.now }
    {
        self.leaf_checks(leaves)?;
        let mut chosen = self.leaves;
        put_at(&mut chosen, 0, leaves);
        self.leaves = chosen;
        self.phase = Phase::Chosen;
        Ok(())
    }

    // Judges message 5, which opens all leaves of each run but the hidden one, and closes the exchange with the answer.
    pub fn take_opening(
        &mut self,
        message5: &[u8],
        matrix: &[u8],
        y: &[u8],
        work: &mut [u8],
    ) -> Answer
        ensures { judged result self.new work.new ≡ spec.opening SHAKE256 (held self.old) message5.now
            (key_of matrix.now y.now) work.old }
    {
        self.opening_checks(message5, matrix, y, work)?;
        let leaves = &self.leaves[..self.runs];
        let answer = judge(
            self.parameters,
            &self.messages,
            leaves,
            message5,
            matrix,
            y,
            work,
        );
        self.phase = Phase::Closed;
        answer
    }

    // The same with the session by value, which is handed back beside the answer.
    pub fn begin(mut self, p: Parameters, runs: usize, message1: &[u8]) -> (Self, Answer)
        ensures { given result.1 result.0 ≡ spec.begin (held self) p runs message1.now }
    {
        let answer = self.start(p, runs, message1);
        (self, answer)
    }

    // Likewise `take_points`.
    pub fn points(mut self, message2: &[u8]) -> (Self, Answer)
        ensures { given result.1 result.0 ≡ spec.points (held self) message2.now }
    {
        let answer = self.take_points(message2);
        (self, answer)
    }

    // Likewise `take_response`.
    pub fn response(mut self, message3: &[u8]) -> (Self, Answer)
        ensures { given result.1 result.0 ≡ spec.response (held self) message3.now }
    {
        let answer = self.take_response(message3);
        (self, answer)
    }

    // Likewise `take_leaf`.
    pub fn leaf(mut self, leaves: &[u8]) -> (Self, Answer)
        ensures { given result.1 result.0 ≡ spec.leaf (held self) leaves.now }
    {
        let answer = self.take_leaf(leaves);
        (self, answer)
    }

    // Likewise `take_opening`.
    pub fn opening(
        mut self,
        message5: &[u8],
        matrix: &[u8],
        y: &[u8],
        work: &mut [u8],
    ) -> (Self, Answer)
        ensures { judged result.1 result.0 work.new ≡ spec.opening SHAKE256 (held self) message5.now
            (key_of matrix.now y.now) work.old }
    {
        let answer = self.take_opening(message5, matrix, y, work);
        (self, answer)
    }
}
