// Message 3 from the sums over the leaves: the digest h' of what the parties of all axes announce.
ghost use Rattle.std.specs.Prelude.{◌≡◌, length};
ghost use Rattle.exchange.specs.Values.{key_of};
ghost use Rattle.messages.specs.Asked.{RespondAsked};
ghost use Rattle.messages.specs.Response.{response_of};

use axes::axis_rows;
use axes::digests::response_digest;
use layout::{MOST_ROWS, MOST_VALUES, leaf_count, rows_length, values_length};
use parameters::Parameters;

// out becomes h', by way of the rows of all axes. No leaf is hidden, so what stands for the hidden one's values does not enter.
pub fn respond(
    p: Parameters,
    prefix: &[u8],
    message2: &[u8],
    matrix: &[u8],
    y: &[u8],
    sums: &[u8],
    out: &mut [u8],
)
    requires { RespondAsked p message2.now matrix.now y.now sums.now × (length out.old ≡ 32) }
    ensures { out.new ≡ response_of p prefix.now (key_of matrix.now y.now)
        message2.now sums.now }
{
    let hidden_values = [0u8; MOST_VALUES];
    let mut rows = [0u8; MOST_ROWS];
    let n = leaf_count(p);
    let values = values_length(p);
    let size = rows_length(p);
    axis_rows(
        p,
        sums,
        message2,
        matrix,
        y,
        n,
        &hidden_values[..values],
        &mut rows[..size],
    );
    response_digest(p, prefix, &rows[..size], out);
}
