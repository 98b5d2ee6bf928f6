// The session of a call that was carried out, in the buffer that the caller lends.
ghost use Rattle.std.specs.Prelude.{◌≡◌, length};
ghost use Rattle.answers.specs.Number.{answer_number};
ghost use Rattle.capi.specs.Session.{kept, after};

use answers::Answer;
use stored::session::Session;

// Writes the session of a call that was carried out; the number of its answer.
pub fn keep<S: Session>(answer: Answer, s: &S, session: &mut [u8]) -> u8
    requires { (length session.old ≡ S.size) × (answer_number answer ≡ 0 → S.is_small s.now) }
    ensures { kept result session.new ≡ kept (answer_number answer)
        (after (answer_number answer) session.old (S.bytes s.now)) }
{
    match answer {
        Ok(()) => {
            s.write(session);
            0
        }
        Err(r) => u8::from(r),
    }
}
