// How many leaves there are, and every length, offset and maximum (document 01, Leaves, Messages and Sessions).
#![tactic(auto)]

pub mod arrays;
pub mod runs;

ghost use Rattle.std.specs.Prelude.{◌≡◌, ◌<◌};
ghost use Rattle.parameters.specs.Limits.{Within};
ghost use Rattle.layout.specs.Layout as spec;
ghost use Rattle.layout.specs.Lent.{lent};

use parameters::Parameters;

// The maxima, which layout/specs/Maxima.antt has too.

// The matrix at k 127 or 128, m 255.
pub const MOST_MATRIX: usize = 16256;

// y at m 255, k 1, and x_A at k 254.
pub const LONGEST_Y: usize = 254;

// The states of 256 leaves.
pub const MOST_STATES: usize = 8192;

// The longest aux: k + 2w + 4t at k 254, w 255, t 8.
pub const LONGEST_AUX: usize = 796;

// The longest share: 12t + k + 2w at t 8, k 254, w 255.
pub const LONGEST_SHARE: usize = 860;

// The shares of nine sums.
pub const LONGEST_SUMS: usize = 7740;

// α and β at t 8.
pub const MOST_VALUES: usize = 64;

// A party's row at t 8.
pub const LONGEST_ROW: usize = 96;

// The rows of all axes at D 8, t 8.
pub const MOST_ROWS: usize = 1536;

// The rows of nine sums at t 8.
pub const MOST_BLOCKS: usize = 864;

// What an opening gives, at D 8, t 8.
pub const MOST_OPENED: usize = 9760;

// What an opening is held to, at t 8.
pub const MOST_STATEMENT: usize = 161;

// The runs of an exchange.
pub const MOST_RUNS: usize = 32;

// Message 1 of 32 runs.
pub const MOST_MESSAGE1: usize = 1056;

// Message 2 of 32 runs at t 8.
pub const MOST_MESSAGES2: usize = 2048;

// Message 3 of 32 runs.
pub const MOST_MESSAGES3: usize = 1024;

// Message 2 at t 8.
pub const LONGEST_MESSAGE2: usize = 64;

// Message 5 with aux at D 8, t 8, k 254, w 255.
pub const LONGEST_MESSAGE5: usize = 1020;

// The work area: sixteen of the longest shares.
pub const MOST_WORK: usize = 13760;

// The coefficients of S of one share, and of F but its leading one, at m 255.
pub const LEAF_COEFFICIENTS: usize = 510;

// The coefficients of S of nine sums, and of F but its leading one, at m 255.
pub const MOST_COEFFICIENTS: usize = 2550;

// The values at a point of Q, S and P of up to fifteen shares, and of F.
pub const MOST_EVALUATIONS: usize = 46;

// How many bits of a leaf's number tell its party on an axis.
pub fn bits(p: Parameters) -> usize
    ensures { result ≡ spec.bits p }
{
    1
}

// The number of parties on an axis.
pub fn side(p: Parameters) -> usize
    ensures { result ≡ spec.side p }
{
    2
}

// The number of parties on an axis but the last one.
pub fn others(p: Parameters) -> usize
    ensures { result ≡ spec.others p }
{
    side(p) - 1
}

// How many sums the work area holds: of all leaves, and of the parties of every axis but the last one.
pub fn sum_count(p: Parameters) -> usize
    requires { Within p }
    ensures { result ≡ spec.sum_count p }
{
    1 + others(p) * p.axes
}

// Where the sum of a party on an axis stands among them: the first parties of all axes, then all leaves, then the others.
pub fn sum_index(p: Parameters, axis: usize, party: usize) -> usize
    requires { Within p × (axis < p.axes) × (party < spec.others p) }
    ensures { result ≡ spec.sum_index p axis party }
{
    if party == 0 {
        return axis;
    }
    party * p.axes + axis + 1
}

// The levels of the seed tree below the root.
pub fn levels(p: Parameters) -> usize
    requires { Within p }
    ensures { result ≡ spec.levels p }
{
    bits(p) * p.axes
}

// The number of leaves.
pub fn leaf_count(p: Parameters) -> usize
    requires { Within p }
    ensures { result ≡ spec.leaves p }
{
    1 << levels(p)
}

// Is the leaf the last one, whose share ends with aux?
pub fn is_last(p: Parameters, leaf: usize) -> bool
    requires { Within p }
    ensures { result ≡ spec.is_last p leaf }
{
    leaf == leaf_count(p) - 1
}

// The length of y, and the number of the matrix's rows.
pub fn y_length(p: Parameters) -> usize
    requires { Within p }
    ensures { result ≡ spec.y_length p }
{
    p.m - p.k
}

// The length of the matrix.
pub fn matrix_length(p: Parameters) -> usize
    requires { Within p }
    ensures { result ≡ spec.matrix_length p }
{
    y_length(p) * p.k
}

// The length of a point at each position: r, c or v.
pub fn points_length(p: Parameters) -> usize
    requires { Within p }
    ensures { result ≡ spec.points_length p }
{
    4 * p.t
}

// The length of a factor at each position: ε, a, b, α or β.
pub fn factor_length(p: Parameters) -> usize
    requires { Within p }
    ensures { result ≡ spec.factor_length p }
{
    4 * p.t
}

// The length of α and β.
pub fn values_length(p: Parameters) -> usize
    requires { Within p }
    ensures { result ≡ spec.values_length p }
{
    2 * factor_length(p)
}

// The length of what a party announces: α, β and v.
pub fn row_length(p: Parameters) -> usize
    requires { Within p }
    ensures { result ≡ spec.row_length p }
{
    values_length(p) + points_length(p)
}

// The length of what the parties of an axis announce.
pub fn axis_length(p: Parameters) -> usize
    requires { Within p }
    ensures { result ≡ spec.axis_length p }
{
    side(p) * row_length(p)
}

// Where x_A starts in a share, behind a and b.
pub fn at_x(p: Parameters) -> usize
    requires { Within p }
    ensures { result ≡ spec.at_x p }
{
    2 * factor_length(p)
}

// Where Q starts in a share.
pub fn at_q(p: Parameters) -> usize
    requires { Within p }
    ensures { result ≡ spec.at_q p }
{
    at_x(p) + p.k
}

// Where P starts in a share.
pub fn at_p(p: Parameters) -> usize
    requires { Within p }
    ensures { result ≡ spec.at_p p }
{
    at_q(p) + p.w
}

// Where c starts in a share.
pub fn at_c(p: Parameters) -> usize
    requires { Within p }
    ensures { result ≡ spec.at_c p }
{
    at_p(p) + p.w
}

// The length of aux.
pub fn aux_length(p: Parameters) -> usize
    requires { Within p }
    ensures { result ≡ spec.aux_length p }
{
    p.k + 2 * p.w + points_length(p)
}

// The length of a share.
pub fn share_length(p: Parameters) -> usize
    requires { Within p }
    ensures { result ≡ spec.share_length p }
{
    at_x(p) + aux_length(p)
}

// The length of the sums that the work area holds.
pub fn sums_length(p: Parameters) -> usize
    requires { Within p }
    ensures { result ≡ spec.sums_length p }
{
    sum_count(p) * share_length(p)
}

// The length of a row for each of these sums.
pub fn blocks_length(p: Parameters) -> usize
    requires { Within p }
    ensures { result ≡ spec.blocks_length p }
{
    sum_count(p) * row_length(p)
}

// The length of message 2: t points and t multipliers.
pub fn message2_length(p: Parameters) -> usize
    requires { Within p }
    ensures { result ≡ spec.message2_length p }
{
    points_length(p) + factor_length(p)
}

// The length of the sibling seeds.
pub fn siblings_length(p: Parameters) -> usize
    requires { Within p }
    ensures { result ≡ spec.siblings_length p }
{
    16 * levels(p)
}

// The length of message 5 where the leaf is hidden: aux stands in it unless that is leaf n−1.
pub fn message5_length(p: Parameters, leaf: usize) -> usize
    requires { Within p }
    ensures { result ≡ spec.message5_length p leaf }
{
    let short = siblings_length(p) + 32 + values_length(p);
    if is_last(p, leaf) {
        return short;
    }
    short + aux_length(p)
}

// The length of the states of all leaves.
pub fn states_length(p: Parameters) -> usize
    requires { Within p }
    ensures { result ≡ spec.states_length p }
{
    32 * leaf_count(p)
}

// The length of the rows of all axes.
pub fn rows_length(p: Parameters) -> usize
    requires { Within p }
    ensures { result ≡ spec.rows_length p }
{
    p.axes * axis_length(p)
}

// Where the rows of all axes end, which stand behind the states in what an opening gives.
pub fn rows_end(p: Parameters) -> usize
    requires { Within p }
    ensures { result ≡ spec.rows_end p }
{
    states_length(p) + rows_length(p)
}

// The length of what an opening gives: states, rows, and the hidden leaf's commitment.
pub fn opened_length(p: Parameters) -> usize
    requires { Within p }
    ensures { result ≡ spec.opened_length p }
{
    rows_end(p) + 32
}

// Where the prefix starts in what an opening is held to, behind h, h' and message 2.
pub fn prefix_place(p: Parameters) -> usize
    requires { Within p }
    ensures { result ≡ spec.prefix_place p }
{
    64 + message2_length(p)
}

// The length of what an opening is held to, with a prefix of salt and run byte.
pub fn statement_length(p: Parameters) -> usize
    requires { Within p }
    ensures { result ≡ spec.statement_length p }
{
    prefix_place(p) + 33
}

// The length of the work area that a call zeroes: a share for each party of every axis.
pub fn work_length(p: Parameters) -> usize
    requires { Within p }
    ensures { result ≡ spec.work_length p }
{
    side(p) * p.axes * share_length(p)
}

// The length of the extractor's output: seed and rho of every leaf, then aux.
pub fn output_length(p: Parameters) -> usize
    requires { Within p }
    ensures { result ≡ spec.output_length p }
{
    states_length(p) + aux_length(p)
}

// Have matrix, y and work area, of these lengths, the lengths that every call asks?
pub fn lent(p: Parameters, matrix: usize, y: usize, work: usize) -> bool
    requires { Within p }
    ensures { result ≡ lent p matrix y work }
{
    matrix == matrix_length(p) && y == y_length(p) && work_length(p) <= work
}
