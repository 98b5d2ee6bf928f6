// Aux: what leaf n−1 is given so that the sums over all leaves come right (document 01, "Strings hashed").
// The tables of the byte field are made once a call and lent down.
ghost use Rattle.std.specs.Prelude.{◌≡◌, ◌*◌, length};
ghost use Rattle.lists.specs.Zeroed.{zeroed};
ghost use Rattle.exchange.specs.Reading.{encode};
ghost use Rattle.messages.specs.Auxiliary.{products_of, wanted_for, aux_for};
ghost use Rattle.messages.specs.Asked.{AuxAsked, ProductsAsked};

use bytefield::FieldTables;
use layout::{at_x, factor_length};
use parameters::Parameters;

// out becomes c: at each position the product of a and b of the sum drawn.
fn products(p: Parameters, drawn: &[u8], out: &mut [u8], tables: &FieldTables)
    requires { ProductsAsked p drawn.now out.old }
    ensures { out.new ≡ encode (products_of p drawn.now) p.t }
{
    let at_b = factor_length(p);
    for l in 0..p.t {
        let a = points::encoding::point_at(drawn, 4 * l);
        let b = points::encoding::point_at(drawn, at_b + 4 * l);
        let c = points::product(a, b, tables);
        points::encoding::put_point(out, 4 * l, c);
    }
}

// out becomes x_A, Q, P and c as the leaves are to sum to. The work area, as long as x, ends as zeros.
fn wanted(
    p: Parameters,
    x: &[u8],
    drawn: &[u8],
    work: &mut [u8],
    out: &mut [u8],
    tables: &FieldTables,
)
    requires { AuxAsked p x.now drawn.now out.old × (length work.old ≡ p.m) }
    ensures { (out.new ≡ wanted_for p x.now drawn.now)
        × (work.new ≡ zeroed p.m work.old) }
{
    let k = p.k;
    let w = p.w;
    let a = k + w;
    let e = a + 1;
    let b = a + w;
    lists::put_at(out, 0, &x[..k]);
    key::locator(w, x, &mut out[k..e], tables);
    key::quotient(w, x, work, &mut out[a..b], tables);
    products(p, drawn, &mut out[b..], tables);
}

// out becomes aux, for the vector x of the key and the sum of all shares drawn.
pub fn aux(p: Parameters, x: &[u8], drawn: &[u8], out: &mut [u8])
    requires { AuxAsked p x.now drawn.now out.old }
    ensures { out.new ≡ aux_for p x.now drawn.now }
{
    let tables = FieldTables::new();
    let mut work = [0u8; 255];
    let m = p.m;
    let a = at_x(p);
    wanted(p, x, drawn, &mut work[..m], out, &tables);
    lists::xor_into(out, &drawn[a..]);
}
