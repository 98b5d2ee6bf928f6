// Sessions before their first begin.
ghost use Rattle.std.specs.Prelude.{◌≡◌};
ghost use Rattle.capi.specs.Session.{kept, prover_new, verifier_new};

// A fresh prover's session; 0, or 2 where the buffer has another length.
#[unsafe(no_mangle)]
pub extern "C" fn unlock_prover_new(session: &mut [u8]) -> u8
    ensures { kept result session.new ≡ prover_new session.old }
{
    if session.len() != stored::PROVER_SIZE {
        return 2;
    }
    let s = prover::fresh();
    stored::write_prover(&s, session);
    0
}

// A fresh verifier's session; 0, or 2 where the buffer has another length.
#[unsafe(no_mangle)]
pub extern "C" fn unlock_verifier_new(session: &mut [u8]) -> u8
    ensures { kept result session.new ≡ verifier_new session.old }
{
    if session.len() != stored::VERIFIER_SIZE {
        return 2;
    }
    let s = verifier::fresh();
    stored::write_verifier(&s, session);
    0
}
