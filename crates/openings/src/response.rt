// Layers 6 and 7 of an opening: what the parties of every axis announce, and h' recomputed.
ghost use Rattle.std.specs.Prelude.{◌≡◌};
ghost use Rattle.lists.specs.Equal.{eq_list};
ghost use Rattle.exchange.specs.Values.{key_of};
ghost use Rattle.openings.specs.Statement.{response_in, prefix_in};
ghost use Rattle.openings.specs.Parts.{rows_in};
ghost use Rattle.openings.specs.From.{response_from};
ghost use Rattle.openings.specs.Asked.{AxesAsked, VerdictAsked};
ghost use Rattle.openings.specs.Checked.{AxesOpened};

use axes::axis_rows;
use axes::digests::response_digest;
use layout::{prefix_place, rows_end, states_length, sums_length};
use lists::{equal, zero_front};
use parameters::Parameters;

// Fills the rows of `opened` with what the parties of every axis announce, from the sums in the work area, which ends as
// zeros.
pub fn open_axes(
    p: Parameters,
    statement: &[u8],
    hidden_leaf: usize,
    hidden_values: &[u8],
    matrix: &[u8],
    y: &[u8],
    work: &mut [u8],
    opened: &mut [u8],
)
    requires { AxesAsked p statement.now hidden_values.now matrix.now y.now work.old opened.old }
    ensures { AxesOpened p statement.now hidden_leaf hidden_values.now (key_of matrix.now y.now)
        work.old opened.old work.new opened.new }
{
    let sums = sums_length(p);
    let at = prefix_place(p);
    let start = states_length(p);
    let end = rows_end(p);
    axis_rows(
        p,
        &work[..sums],
        &statement[64..at],
        matrix,
        y,
        hidden_leaf,
        hidden_values,
        &mut opened[start..end],
    );
    let size = work.len();
    zero_front(work, size);
}

// Is the recomputed h' the statement's?
pub fn response_agrees(p: Parameters, statement: &[u8], opened: &[u8]) -> bool
    requires { VerdictAsked p statement.now opened.now }
    ensures { result ≡ eq_list (response_from p (prefix_in p statement.now) (rows_in p opened.now) 32)
        (response_in statement.now) }
{
    let at = prefix_place(p);
    let start = states_length(p);
    let end = rows_end(p);
    let mut h = [0u8; 32];
    response_digest(p, &statement[at..], &opened[start..end], &mut h);
    equal(&h, &statement[32..64])
}
