// What the prover's calls ask of parameters, run count and the lengths of what they are lent.
ghost use Rattle.std.specs.Prelude.{◌≡◌, ◌∷◌, eqb, length};
ghost use Rattle.lists.specs.Checks.{all_true};
ghost use Rattle.layout.specs.Runs.{messages2_length, messages3_length, messages5_length};
ghost use Rattle.layout.specs.Lent.{lent_tests};
ghost use Rattle.prover.specs.Arguments.{begin_tests, Limited};

use layout::runs::{message1_length, messages2_length, messages3_length, messages5_length};
use parameters::Parameters;

// The lengths of what begin is lent besides x_A, matrix and y.
#[derive(Clone, Copy)]
pub struct Lengths {
    pub salt: usize,
    pub root: usize,
    pub work: usize,
    pub out: usize,
}

// Have the slices that begin is lent, of these lengths, the lengths that parameters and run count say?
pub fn begin_lengths(
    p: Parameters,
    runs: usize,
    x_a: usize,
    matrix: usize,
    y: usize,
    others: Lengths,
) -> bool
    requires { Limited p runs }
    ensures { result ≡ all_true (begin_tests p runs x_a matrix y others) }
{
    x_a == p.k
        && (others.salt == 32
            && (others.root == 16
                && (others.out == message1_length(runs)
                    && layout::lent(p, matrix, y, others.work))))
}

// Have the slices that points is lent, of these lengths, the lengths that parameters and run count say?
pub fn points_lengths(
    p: Parameters,
    runs: usize,
    message2: usize,
    matrix: usize,
    y: usize,
    work: usize,
    out: usize,
) -> bool
    requires { Limited p runs }
    ensures { result ≡ all_true (eqb message2 (messages2_length p runs) ∷ eqb out (messages3_length runs) ∷ lent_tests p matrix y work) }
{
    message2 == messages2_length(p, runs)
        && (out == messages3_length(runs) && layout::lent(p, matrix, y, work))
}

// Have the slices that leaf is lent, of these lengths, the lengths that parameters, run count and leaves say?
pub fn leaf_lengths(
    p: Parameters,
    runs: usize,
    leaves: &[u8],
    matrix: usize,
    y: usize,
    work: usize,
    out: usize,
) -> bool
    requires { Limited p runs }
    ensures { result ≡ all_true (eqb (length leaves.now) runs ∷ eqb out (messages5_length p leaves.now)
        ∷ lent_tests p matrix y work) }
{
    leaves.len() == runs && (out == messages5_length(p, leaves) && layout::lent(p, matrix, y, work))
}
