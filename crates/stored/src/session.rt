// What the sessions of both sides have in common: a form in bytes.
ghost use Rattle.std.specs.Prelude.{◌≡◌, ℕ, List, length};

use prover::Prover;
use verifier::Verifier;

pub trait Session {
    // how many bytes there are, which sessions have a form in bytes, and the bytes
    ghost size: { ℕ };

    ghost is_small: { Self → Type 0 };

    ghost bytes: { Self → List ℕ };

    // Writes the session's bytes.
    fn write(&self, out: &mut [u8])
        requires { (length out.old ≡ size) × is_small self.now }
        ensures { out.new ≡ bytes self.now };
}

impl Session for Prover {
    ghost use Rattle.prover.specs.Held.{held};
    ghost use Rattle.stored.specs.Parameters.{Small};
    ghost use Rattle.stored.specs.Prover.{prover_size, prover_bytes};

    ghost size = { prover_size };

    ghost is_small = { λ s. Small s.parameters s.runs };

    ghost bytes = { λ s. prover_bytes (held s) };

    fn write(&self, out: &mut [u8]) {
        crate::write_prover(self, out);
    }
}

impl Session for Verifier {
    ghost use Rattle.verifier.specs.Held.{held};
    ghost use Rattle.stored.specs.Parameters.{Small};
    ghost use Rattle.stored.specs.Verifier.{verifier_size, verifier_bytes};

    ghost size = { verifier_size };

    ghost is_small = { λ s. Small s.parameters s.runs };

    ghost bytes = { λ s. verifier_bytes (held s) };

    fn write(&self, out: &mut [u8]) {
        crate::write_verifier(self, out);
    }
}
