// Sessions as bytes, for a caller that keeps a session in a buffer of its own.
#![tactic(auto)]

pub mod buffer;
mod parts;
pub mod session;

ghost use Rattle.std.specs.Prelude.{◌≡◌, length};
ghost use Rattle.prover.specs.Held.{held as held_prover};
ghost use Rattle.verifier.specs.Held.{held as heldVerifier};
ghost use Rattle.stored.specs.Parameters.{Small};
ghost use Rattle.stored.specs.Prover.{prover_size, prover_bytes, prover_from};
ghost use Rattle.stored.specs.Verifier.{verifier_size, verifier_bytes, verifier_from};

use layout::arrays::array;
use prover::Prover;
use verifier::Verifier;

// The bytes of a prover's session: phase, parameters, run count, x, salt, root, message 2.
pub const PROVER_SIZE: usize = 2358;

// The bytes of a verifier's session: phase, parameters, run count, messages 1, 2 and 3, leaves.
pub const VERIFIER_SIZE: usize = 4167;

// The prover's session that the bytes are.
pub fn read_prover(b: &[u8]) -> Prover
    requires { length b.now ≡ prover_size }
    ensures { held_prover result ≡ prover_from b.now }
{
    let phase = prover_phase::Phase::from(b[0]);
    let parameters = parts::read_parameters(b);
    let runs = usize::from(b[6]);
    let x = array(&b[7..262]);
    let salt = array(&b[262..294]);
    let root = array(&b[294..310]);
    let message2 = array(&b[310..2358]);
    Prover {
        phase,
        parameters,
        runs,
        x,
        salt,
        root,
        message2,
    }
}

// The bytes of a prover's session.
pub fn write_prover(s: &Prover, out: &mut [u8])
    requires { (length out.old ≡ prover_size) × Small s.now.parameters s.now.runs }
    ensures { out.new ≡ prover_bytes (held_prover s.now) }
{
    let start = parts::head(u8::from(s.phase), s.parameters, s.runs);
    parts::write_parts(&start, &s.x, &s.salt, &s.root, &s.message2, out);
}

// The verifier's session that the bytes are.
pub fn read_verifier(b: &[u8]) -> Verifier
    requires { length b.now ≡ verifier_size }
    ensures { heldVerifier result ≡ verifier_from b.now }
{
    let phase = verifier_phase::Phase::from(b[0]);
    let parameters = parts::read_parameters(b);
    let runs = usize::from(b[6]);
    let messages = array(&b[7..4135]);
    let leaves = array(&b[4135..4167]);
    Verifier {
        phase,
        parameters,
        runs,
        messages,
        leaves,
    }
}

// The bytes of a verifier's session.
pub fn write_verifier(s: &Verifier, out: &mut [u8])
    requires { (length out.old ≡ verifier_size) × Small s.now.parameters s.now.runs }
    ensures { out.new ≡ verifier_bytes (heldVerifier s.now) }
{
    let start = parts::head(u8::from(s.phase), s.parameters, s.runs);
    lists::put_at(out, 0, &start);
    lists::put_at(out, 7, &s.messages);
    lists::put_at(out, 4135, &s.leaves);
}
