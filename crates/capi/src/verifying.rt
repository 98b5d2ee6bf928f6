// The verifier's calls.
ghost use Rattle.std.specs.Prelude.{◌≡◌, true, cond, length};
ghost use Rattle.answers.specs.Number.{answer_number};
ghost use Rattle.exchange.specs.Values.{key_of};
ghost use Rattle.verifier.specs.Held.{held};
ghost use Rattle.stored.specs.Parameters.{Small};
ghost use Rattle.stored.specs.Verifier.{verifier_size, verifier_bytes};
ghost use Rattle.capi.specs.Session.{kept};
ghost use Rattle.capi.specs.Verifier.{verifier_begin_set, verifier_points, verifier_response, verifier_leaf, judged, judges, verifier_opening};

use crate::keeping::keep;
use crate::misfit::misfit_number;
use answers::Answer;
use parameters::set::parameters_of;
use stored::buffer::is_judged;
use verifier::Verifier;

// Begins an exchange of so many runs with its parameters and message 1. A set of another length gives 2 before everything else.
#[unsafe(no_mangle)]
pub extern "C" fn unlock_verifier_begin(
    session: &mut [u8],
    set: &[usize],
    runs: usize,
    message1: &[u8],
) -> u8
    ensures { kept result session.new ≡ verifier_begin_set session.old set.now runs message1.now }
{
    if set.len() != parameters::set::LENGTH {
        return 2;
    }
    let p = parameters_of(set);
    if session.len() != stored::VERIFIER_SIZE {
        return misfit_number(p, runs);
    }
    let mut s = stored::read_verifier(session);
    let answer = s.start(p, runs, message1);
    keep(answer, &s, session)
}

// Takes message 2, points and multipliers, which the verifier sends.
#[unsafe(no_mangle)]
pub extern "C" fn unlock_verifier_points(session: &mut [u8], message2: &[u8]) -> u8
    ensures { kept result session.new ≡ verifier_points session.old message2.now }
{
    if session.len() != stored::VERIFIER_SIZE {
        return 2;
    }
    let mut s = stored::read_verifier(session);
    let answer = s.take_points(message2);
    keep(answer, &s, session)
}

// Takes message 3, the response digests.
#[unsafe(no_mangle)]
pub extern "C" fn unlock_verifier_response(session: &mut [u8], message3: &[u8]) -> u8
    ensures { kept result session.new ≡ verifier_response session.old message3.now }
{
    if session.len() != stored::VERIFIER_SIZE {
        return 2;
    }
    let mut s = stored::read_verifier(session);
    let answer = s.take_response(message3);
    keep(answer, &s, session)
}

// Takes message 4, the leaf that is to stay hidden in each run.
#[unsafe(no_mangle)]
pub extern "C" fn unlock_verifier_leaf(session: &mut [u8], leaves: &[u8]) -> u8
    ensures { kept result session.new ≡ verifier_leaf session.old leaves.now }
{
    if session.len() != stored::VERIFIER_SIZE {
        return 2;
    }
    let mut s = stored::read_verifier(session);
    let answer = s.take_leaf(leaves);
    keep(answer, &s, session)
}

// Writes the session of an opening that was judged; the number of its answer.
fn keep_opening(answer: Answer, s: &Verifier, session: &mut [u8]) -> u8
    requires { (length session.old ≡ verifier_size) × (judges (answer_number answer) ≡ true → Small s.now.parameters s.now.runs) }
    ensures { kept result session.new ≡ kept (answer_number answer)
        (cond (judges (answer_number answer)) (verifier_bytes (held s.now)) session.old) }
{
    let n = answers::answer_number(answer);
    if is_judged(n) {
        stored::write_verifier(s, session);
    }
    n
}

// Judges message 5 and closes the exchange: 0 where all runs are accepted, else 5 or 7 of the lowest refused run.
#[unsafe(no_mangle)]
pub extern "C" fn unlock_verifier_opening(
    session: &mut [u8],
    message5: &[u8],
    matrix: &[u8],
    y: &[u8],
    work: &mut [u8],
) -> u8
    ensures { judged result session.new work.new
        ≡ verifier_opening session.old message5.now (key_of matrix.now y.now) work.old }
{
    if session.len() != stored::VERIFIER_SIZE {
        return 2;
    }
    let mut s = stored::read_verifier(session);
    let answer = s.take_opening(message5, matrix, y, work);
    keep_opening(answer, &s, session)
}
