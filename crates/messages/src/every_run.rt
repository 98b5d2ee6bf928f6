// The prover's messages 1, 3 and 5 of an exchange: those of its runs one after another (document 02, request 01).
// The runs use the work area one after another.
ghost use Rattle.std.specs.Prelude.{◌≡◌, List, ℕ, ◌/◌, length, take};
ghost use Rattle.lists.specs.Zeroed.{zeroed};
ghost use Rattle.shake256.specs.Fips.{SHAKE256};
ghost use Rattle.layout.specs.Layout.{work_length};
ghost use Rattle.layout.specs.Runs.{message1_length};
ghost use Rattle.exchange.specs.Values.{key_of};
ghost use Rattle.runs.specs.Messages as spec;
ghost use Rattle.messages.specs.EveryRun.{Exchanging, Answering, Opening};
ghost use Rattle.messages.specs.Run.{salt_in, root_in};

use crate::{commitment_digest, message3 as run_message3, message5 as run_message5, run_at};
use layout::{message2_length, message5_length};
use lists::put_at;
use parameters::Parameters;

// out becomes message 1, salt and h of each run, and the named length of the work area ends as zeros.
pub fn message1(p: Parameters, runs: usize, x: &[u8], seeds: &[u8], work: &mut [u8], out: &mut [u8])
    requires { Exchanging p runs x.now seeds.now work.old × (length out.old ≡ message1_length runs) }
    ensures { (out.new ≡ spec.message1 SHAKE256 p runs (take p.m x.now) (salt_in seeds.now)
        (root_in seeds.now)) × (work.new ≡ zeroed (work_length p) work.old) }
{
    put_at(out, 0, &seeds[..32]);
    for e in 0..runs {
        let at = 32 + 32 * e;
        let end = at + 32;
        let run = run_at(seeds, e);
        commitment_digest(p, x, &run, work, &mut out[at..end]);
    }
}

// out becomes message 3, h' of each run, and the named length of the work area ends as zeros.
pub fn message3(
    p: Parameters,
    x: &[u8],
    seeds: &[u8],
    message2: &[u8],
    matrix: &[u8],
    y: &[u8],
    work: &mut [u8],
    out: &mut [u8],
)
    requires { Exchanging p (length out.old / 32) x.now seeds.now work.old
        × Answering p (length out.old / 32) message2.now matrix.now y.now out.old }
    ensures { (out.new ≡ spec.message3 SHAKE256 p (length out.old / 32) (take p.m x.now)
        (salt_in seeds.now) (root_in seeds.now) (key_of matrix.now y.now) message2.now)
        × (work.new ≡ zeroed (work_length p) work.old) }
{
    let runs = out.len() / 32;
    let size = message2_length(p);
    for e in 0..runs {
        let points = e * size;
        let next = points + size;
        let at = 32 * e;
        let end = at + 32;
        let run = run_at(seeds, e);
        run_message3(
            p,
            x,
            &run,
            &message2[points..next],
            matrix,
            y,
            work,
            &mut out[at..end],
        );
    }
}

// out becomes message 5 of the runs that hide these leaves, and the named length of the work area ends as zeros. It is the same
// for every y of the key.
pub fn message5(
    p: Parameters,
    x: &[u8],
    seeds: &[u8],
    message2: &[u8],
    leaves: &[u8],
    matrix: &[u8],
    work: &mut [u8],
    out: &mut [u8],
)
    requires { Exchanging p (length leaves.now) x.now seeds.now work.old
        × Opening p message2.now leaves.now matrix.now out.old }
    ensures { ((y : List ℕ) → out.new ≡ spec.message5 SHAKE256 p (length leaves.now) (take p.m x.now)
        (salt_in seeds.now) (root_in seeds.now) (key_of matrix.now y) message2.now leaves.now)
        × (work.new ≡ zeroed (work_length p) work.old) }
{
    let size = message2_length(p);
    let mut at = 0;
    for (e, leaf) in leaves.iter().enumerate() {
        let leaf = usize::from(*leaf);
        let points = e * size;
        let next = points + size;
        let end = at + message5_length(p, leaf);
        let run = run_at(seeds, e);
        run_message5(
            p,
            x,
            &run,
            &message2[points..next],
            leaf,
            matrix,
            work,
            &mut out[at..end],
        );
        at = end;
    }
}
