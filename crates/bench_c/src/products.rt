// How many products of the points field the announcement of shares makes, for a program that prints it: the evaluation is run
// and its own count answered.
ghost use Rattle.std.specs.Prelude.{◌≡◌, ◌≤◌};
ghost use Rattle.parameters.specs.Limits.{Within};
ghost use Rattle.values.specs.Products.{products_of};
ghost use Rattle.bench_c.specs.Counted.{counted_for};

use bytefield::FieldTables;
use layout::{LONGEST_MESSAGE2, LONGEST_SUMS, MOST_BLOCKS, MOST_COEFFICIENTS};
use parameters::Parameters;

// The products of the announcement of n shares, all of which are zero.
fn count(p: Parameters, n: usize) -> usize
    requires { Within p × (n ≤ 9) }
    ensures { result ≡ products_of p n }
{
    let tables = FieldTables::new();
    let shares = [0u8; LONGEST_SUMS];
    let rows = [0u8; MOST_COEFFICIENTS];
    let message2 = [0u8; LONGEST_MESSAGE2];
    let mut out = [0u8; MOST_BLOCKS];
    let a = n * layout::share_length(p);
    let b = (n + 1) * p.m;
    let c = layout::message2_length(p);
    let e = n * layout::row_length(p);
    values::announce_each(
        p,
        n,
        &shares[..a],
        &rows[..b],
        &message2[..c],
        false,
        &mut out[..e],
        &tables,
    )
}

// The products of the announcement of n shares; 0 where the set has another length, a parameter is outside its limits, or n above 9.
#[unsafe(no_mangle)]
pub extern "C" fn evaluation_c_products(n: usize, set: &[usize]) -> usize
    ensures { result ≡ counted_for n set.now }
{
    if n > 9 {
        return 0;
    }
    if set.len() != parameters::set::LENGTH {
        return 0;
    }
    let p = parameters::set::parameters_of(set);
    if parameters::within_limits(p) {
        return count(p, n);
    }
    0
}
