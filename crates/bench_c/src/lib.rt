// The product of bytes for a C program that times it.
#![tactic(auto)]

pub mod products;

ghost use Rattle.std.specs.Prelude.{◌≡◌};
ghost use Rattle.bench_c.specs.Dot.{dot};

use bytefield::FieldTables;

// The sum of the products of a and b, place by place, over the places that both have.
#[unsafe(no_mangle)]
pub extern "C" fn bytefield_c_dot(a: &[u8], b: &[u8]) -> u8
    ensures { result ≡ dot a.now b.now }
{
    let tables = FieldTables::new();
    let mut total = 0;
    for (x, y) in a.iter().zip(b) {
        total = bytefield::sum(total, tables.product(*x, *y));
    }
    total
}
