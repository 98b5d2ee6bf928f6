// The prover's messages 1, 3 and 5 (document 01, Messages) from the arrays that its session holds, in the front of the work area.
// What an exchange starts from is one slice of seeds: the salt of 32 bytes, then the root seed of 16.
// A run is one slice: the root's seed of 16 bytes, then the prefix.
#![tactic(auto)]

pub mod auxiliary;
pub mod every_run;
mod filled;
mod hidden_leaf;
mod opening;
pub mod own_leaves;
mod response;

ghost use Rattle.std.specs.Prelude.{◌≡◌, List, ℕ, ◌<◌, length, take, drop};
ghost use Rattle.lists.specs.Zeroed.{zeroed};
ghost use Rattle.shake256.specs.Fips.{SHAKE256};
ghost use Rattle.layout.specs.Layout.{work_length};
ghost use Rattle.exchange.specs.Messages as spec;
ghost use Rattle.exchange.specs.Values.{key_of};
ghost use Rattle.runs.specs.Run.{run_at};
ghost use Rattle.messages.specs.Asked.{Arrays, Keyed, Disclosing};
ghost use Rattle.messages.specs.Run.{run_in, salt_in, root_in};

use crate::filled::fill;
use crate::hidden_leaf::hidden_leaf;
use crate::opening::put_opening;
use crate::own_leaves::own_leaves;
use crate::response::respond;
use layout::{
    LONGEST_AUX, LONGEST_SHARE, MOST_STATES, aux_length, leaf_count, share_length, siblings_length,
    states_length, sums_length, work_length,
};
use leaves::commitments::digest_commitments;
use lists::{put_at, zero_front};
use parameters::Parameters;
use strings::{begin, hash};

// What an exchange of this salt and root starts from.
pub fn seeds_of(salt: &[u8], root: &[u8]) -> [u8; 48]
    requires { (length salt.now ≡ 32) × (length root.now ≡ 16) }
    ensures { (salt_in result ≡ salt.now) × (root_in result ≡ root.now) × (length result ≡ 48) }
{
    let mut seeds = [0u8; 48];
    put_at(&mut seeds, 0, salt);
    put_at(&mut seeds, 32, root);
    seeds
}

// The layer byte of the strings that give the runs' roots.
const ROOTS: u8 = 8;

// Run e of an exchange that starts from these seeds.
pub fn run_at(seeds: &[u8], e: usize) -> [u8; 49]
    requires { (length seeds.now ≡ 48) × (e < 256) }
    ensures { (run_in result ≡ run_at SHAKE256 (salt_in seeds.now) (root_in seeds.now) e) × (length result ≡ 49) }
{
    let mut run = [0u8; 49];
    let number = [e as u8];
    put_at(&mut run, 16, &seeds[..32]);
    put_at(&mut run, 48, &number);
    let start = begin(ROOTS, &run[16..]);
    hash(start, &[], &[], &seeds[32..], &mut run[..16]);
    run
}

// out becomes h, which stands behind the prefix in message 1, and the named length of the work area ends as zeros.
pub fn commitment_digest(p: Parameters, x: &[u8], run: &[u8], work: &mut [u8], out: &mut [u8])
    requires { Arrays p x.now run.now work.old × (length out.old ≡ 32) }
    ensures { (out.new ≡ drop (length (run_in run.now).prefix)
        (spec.message1 SHAKE256 p (take p.m x.now) (run_in run.now)))
        × (work.new ≡ zeroed (work_length p) work.old) }
{
    let mut states = [0u8; MOST_STATES];
    let mut aux = [0u8; LONGEST_AUX];
    let n = leaf_count(p);
    let size = states_length(p);
    let length = aux_length(p);
    own_leaves(p, x, run, work, &mut states[..size], &mut aux[..length]);
    digest_commitments(p, &run[16..], &states[..size], n, &[], &aux[..length], out);
}

// out becomes message 3, and the named length of the work area ends as zeros.
pub fn message3(
    p: Parameters,
    x: &[u8],
    run: &[u8],
    message2: &[u8],
    matrix: &[u8],
    y: &[u8],
    work: &mut [u8],
    out: &mut [u8],
)
    requires { Arrays p x.now run.now work.old × Keyed p message2.now matrix.now y.now × (length out.old ≡ 32) }
    ensures { (out.new ≡ spec.message3 SHAKE256 p (take p.m x.now) (run_in run.now)
        (key_of matrix.now y.now) message2.now)
        × (work.new ≡ zeroed (work_length p) work.old) }
{
    let m = p.m;
    let n = work_length(p);
    let end = sums_length(p);
    fill(p, &x[..m], run, &mut work[..end]);
    respond(p, &run[16..], message2, matrix, y, &work[..end], out);
    zero_front(work, n);
}

// out becomes message 5 for the leaf, and the named length of the work area ends as zeros. It is the same for every y of the key.
pub fn message5(
    p: Parameters,
    x: &[u8],
    run: &[u8],
    message2: &[u8],
    leaf: usize,
    matrix: &[u8],
    work: &mut [u8],
    out: &mut [u8],
)
    requires { Arrays p x.now run.now work.old × Disclosing p message2.now leaf matrix.now out.old }
    ensures { ((y : List ℕ) → out.new ≡ spec.message5 SHAKE256 p (take p.m x.now) (run_in run.now)
        (key_of matrix.now y) message2.now leaf)
        × (work.new ≡ zeroed (work_length p) work.old) }
{
    let mut own = [0u8; 32 + LONGEST_SHARE];
    let mut aux = [0u8; LONGEST_AUX];
    let a = siblings_length(p);
    let size = 32 + share_length(p);
    let length = aux_length(p);
    hidden_leaf(
        p,
        x,
        run,
        leaf,
        work,
        &mut out[..a],
        &mut own[..size],
        &mut aux[..length],
    );
    put_opening(
        p,
        &run[16..],
        message2,
        leaf,
        matrix,
        &own[..size],
        &aux[..length],
        out,
    );
}
