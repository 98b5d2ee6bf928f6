// The call begin carried out.
ghost use Rattle.std.specs.Prelude.{◌≡◌, Ok};
ghost use Rattle.prover.specs.Facts.{Starting};
ghost use Rattle.prover.specs.Held.{given};
ghost use Rattle.prover.specs.Next.{begun_with};

use crate::Prover;
use layout::MOST_MESSAGES2;
use layout::arrays::array;
use messages::every_run::message1;
use messages::seeds_of;
use parameters::Parameters;
use prover_phase::Phase;

// The session that holds the new exchange, with x at the front of 255 bytes; message 1 is in out and the work area is zeroed.
pub fn begun(
    p: Parameters,
    runs: usize,
    x: [u8; 255],
    salt: &[u8],
    root: &[u8],
    work: &mut [u8],
    out: &mut [u8],
) -> Prover
    requires { Starting p runs x salt.now root.now work.old out.old }
    ensures { given (Ok tt) result out.new work.new ≡ begun_with p runs x salt.now root.now work.old }
{
    let seeds = seeds_of(salt, root);
    message1(p, runs, &x, &seeds, work, out);
    let held_salt = array(salt);
    let held_root = array(root);
    Prover {
        phase: Phase::Begun,
        parameters: p,
        runs,
        x,
        salt: held_salt,
        root: held_root,
        message2: [0u8; MOST_MESSAGES2],
    }
}
