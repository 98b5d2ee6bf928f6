// The prover's calls.
ghost use Rattle.std.specs.Prelude.{◌≡◌};
ghost use Rattle.exchange.specs.Values.{key_of};
ghost use Rattle.capi.specs.Prover.{given, prover_begin_set, prover_points, prover_leaf};

use crate::keeping::keep;
use crate::misfit::misfit_number;
use parameters::set::parameters_of;

// Begins an exchange of so many runs and gives message 1. A set of another length gives 2 before everything else.
#[unsafe(no_mangle)]
pub extern "C" fn unlock_prover_begin(
    session: &mut [u8],
    set: &[usize],
    runs: usize,
    x_a: &[u8],
    salt: &[u8],
    root: &[u8],
    matrix: &[u8],
    y: &[u8],
    work: &mut [u8],
    out: &mut [u8],
) -> u8
    ensures { given result session.new out.new work.new
        ≡ prover_begin_set session.old set.now runs x_a.now salt.now root.now
        (key_of matrix.now y.now) work.old out.old }
{
    if set.len() != parameters::set::LENGTH {
        return 2;
    }
    let p = parameters_of(set);
    if session.len() != stored::PROVER_SIZE {
        return misfit_number(p, runs);
    }
    let mut s = stored::read_prover(session);
    let answer = s.start(p, runs, x_a, salt, root, matrix, y, work, out);
    keep(answer, &s, session)
}

// Takes message 2, points and multipliers, and gives message 3.
#[unsafe(no_mangle)]
pub extern "C" fn unlock_prover_points(
    session: &mut [u8],
    message2: &[u8],
    matrix: &[u8],
    y: &[u8],
    work: &mut [u8],
    out: &mut [u8],
) -> u8
    ensures { given result session.new out.new work.new
        ≡ prover_points session.old message2.now (key_of matrix.now y.now) work.old out.old }
{
    if session.len() != stored::PROVER_SIZE {
        return 2;
    }
    let mut s = stored::read_prover(session);
    let answer = s.take_points(message2, matrix, y, work, out);
    keep(answer, &s, session)
}

// Takes message 4, the leaf that stays hidden in each run, gives message 5 and closes the exchange.
#[unsafe(no_mangle)]
pub extern "C" fn unlock_prover_leaf(
    session: &mut [u8],
    leaves: &[u8],
    matrix: &[u8],
    y: &[u8],
    work: &mut [u8],
    out: &mut [u8],
) -> u8
    ensures { given result session.new out.new work.new
        ≡ prover_leaf session.old leaves.now (key_of matrix.now y.now) work.old out.old }
{
    if session.len() != stored::PROVER_SIZE {
        return 2;
    }
    let mut s = stored::read_prover(session);
    let answer = s.take_leaf(leaves, matrix, y, work, out);
    keep(answer, &s, session)
}
