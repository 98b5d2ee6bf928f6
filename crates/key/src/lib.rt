// The key: its vector x, the weight, and the polynomials Q and P (document 01, "Key and polynomials"). S and F are polynomial's.
// The field tables are made once a call and lent down.
#![tactic(auto)]

ghost use Rattle.std.specs.Prelude.{◌≡◌, true, ◌++◌, ◌+◌, ◌-◌, ◌*◌, ◌<◌, ◌≤◌, length, take, drop, leb};
ghost use Rattle.lists.specs.Zeroed.{zeroed};
ghost use Rattle.algebra.specs.Each.{NotIn, Disjoint};
ghost use Rattle.algebra.specs.Polynomial.{interpolate};
ghost use Rattle.algebra.specs.Polynomial.Ratios.{distances, ratios};
ghost use Rattle.bytefield.specs.Product.{◌⊗◌, byte_ops};
ghost use Rattle.bytefield.specs.Powers.{power};
ghost use Rattle.bytefield.specs.Inverse.{inverse};
ghost use Rattle.relation.specs.Key.{dot, rows, vector_of, weight_of, positions, locator_of, quotient_of};
ghost use Rattle.relation.specs.Light.{Light};
ghost use Rattle.relation.specs.Key.Polynomials.{inside, outside};
ghost use Rattle.key.specs.Loops.Positions.{chosen, spared};
ghost use Rattle.key.specs.Loops.Locator.{root_if, at_if};
ghost use Rattle.key.specs.Loops.Gather.{wanted, selected, put_if, next_if};

use bytefield::FieldTables;

// The product of the row h with x.
fn row(h: &[u8], x: &[u8], tables: &FieldTables) -> u8
    requires { length x.now ≤ length h.now }
    ensures { result ≡ dot h.now x.now }
{
    let mut acc: u8 = 0;
    for (i, b) in x.iter().enumerate() {
        acc = bytefield::sum(acc, tables.product(h[i], *b));
    }
    acc
}

// out becomes H'x: out.len() rows of the matrix, each of x.len() bytes, times x.
pub fn image(x: &[u8], matrix: &[u8], out: &mut [u8], tables: &FieldTables)
    requires { length out.old * length x.now ≤ length matrix.now }
    ensures { out.new ≡ rows (length out.old) matrix.now x.now }
{
    let k = x.len();
    for (i, b) in out.iter_mut().enumerate() {
        *b = row(&matrix[i * k..(i + 1) * k], x, tables);
    }
}

// out becomes the vector x: x_A, and behind it y + H'x_A.
pub fn vector(x_a: &[u8], matrix: &[u8], y: &[u8], out: &mut [u8], tables: &FieldTables)
    requires { (length out.old ≡ length x_a.now + length y.now) × (length y.now * length x_a.now ≤ length matrix.now) }
    ensures { out.new ≡ vector_of matrix.now y.now x_a.now }
{
    let k = x_a.len();
    lists::put_at(out, 0, x_a);
    image(x_a, matrix, &mut out[k..], tables);
    lists::xor_into(&mut out[k..], y);
}

// How many entries of x are nonzero.
pub fn weight(x: &[u8]) -> usize
    ensures { result ≡ weight_of x.now }
{
    let mut n: usize = 0;
    for b in x {
        if *b != 0 {
            n += 1;
        }
    }
    n
}

// Has x at most w nonzero entries? Where it has more, document 01 refuses with 3.
pub fn within_weight(w: usize, x: &[u8]) -> bool
    ensures { result ≡ leb (weight_of x.now) w }
{
    weight(x) <= w
}

// How many positions where x is zero E takes in.
fn to_fill(w: usize, x: &[u8]) -> usize
    requires { weight_of x.now ≤ w }
    ensures { result ≡ w - weight_of x.now }
{
    w - weight(x)
}

// Is the position with the entry b in E, where left positions may still be filled in?
fn is_chosen(b: u8, left: usize) -> bool
    ensures { result ≡ chosen b left }
{
    b != 0 || 0 < left
}

// How many may be filled in after it.
fn left_after(b: u8, left: usize) -> usize
    ensures { result ≡ spared b left }
{
    if b != 0 {
        return left;
    }
    left.saturating_sub(1)
}

// The polynomial from place at on gets the factor X + f, and starts one place lower, if hit; and its place.
fn root_if(p: &mut [u8], at: usize, f: u8, hit: bool, tables: &FieldTables) -> usize
    requires { (hit ≡ true → 0 < at) × (at < length p.old) }
    ensures { (p.new ≡ root_if hit p.old at f) × (result ≡ at_if hit at) }
{
    if hit {
        let a = at - 1;
        polynomial::add_root(p, a, f, tables);
        return a;
    }
    at
}

// out, of w + 1 bytes, becomes Q, for a vector x of at most w nonzero entries.
pub fn locator(w: usize, x: &[u8], out: &mut [u8], tables: &FieldTables)
    requires { Light w x.now × (length out.old ≡ w + 1) }
    ensures { out.new ≡ locator_of w x.now }
{
    let mut left = to_fill(w, x);
    let mut at = w;
    out[w] = 1;
    for (i, b) in x.iter().enumerate() {
        let hit = is_chosen(*b, left);
        at = root_if(out, at, i as u8 + 1, hit, tables);
        left = left_after(*b, left);
    }
}

// Does a position count, of which hit says whether it is in E? Those in E do where inside is set, and the others where not.
fn is_wanted(inside: bool, hit: bool) -> bool
    ensures { result ≡ wanted inside hit }
{
    inside == hit
}

// b is written to place at, if hit; and the next place.
fn put_if(out: &mut [u8], at: usize, b: u8, hit: bool) -> usize
    requires { (hit ≡ true → at < length out.old) × (at ≤ length out.old) }
    ensures { (out.new ≡ put_if hit out.old at b) × (result ≡ next_if hit at) }
{
    if hit {
        out[at] = b;
        return at + 1;
    }
    at
}

// out becomes the elements of s at the positions of E, or at the others. s has one for each entry of x.
fn gather(w: usize, x: &[u8], s: &[u8], inside: bool, out: &mut [u8])
    requires { (weight_of x.now ≤ w) × (length s.now ≡ length x.now)
        × (length out.old ≡ length (selected inside (positions w x.now) s.now)) }
    ensures { out.new ≡ selected inside (positions w x.now) s.now }
{
    let mut left = to_fill(w, x);
    let mut at = 0;
    for (i, b) in x.iter().enumerate() {
        let hit = is_wanted(inside, is_chosen(*b, left));
        at = put_if(out, at, s[i], hit);
        left = left_after(*b, left);
    }
}

// out, as long as x, becomes the interpolation points of E and then the others.
fn split(w: usize, x: &[u8], out: &mut [u8])
    requires { Light w x.now × (length out.old ≡ length x.now) }
    ensures { out.new ≡ inside w x.now ++ outside w x.now }
{
    let n = x.len();
    let fs = polynomial::points();
    gather(w, x, &fs[..n], true, &mut out[..w]);
    gather(w, x, &fs[..n], false, &mut out[w..]);
}

// A logarithm of the product of the distances of f from the points gs, none of which it is.
fn log_distances(f: u8, gs: &[u8], tables: &FieldTables) -> usize
    requires { (length gs.now < 256) × NotIn f gs.now }
    ensures { power result ≡ distances byte_ops f gs.now }
{
    let mut s: usize = 0;
    for g in gs {
        s += tables.log_of(bytefield::sum(f, *g));
    }
    s
}

// y over the product of the distances of f from the points gs, none of which it is.
fn ratio(y: u8, f: u8, gs: &[u8], tables: &FieldTables) -> u8
    requires { (length gs.now < 256) × NotIn f gs.now }
    ensures { result ≡ y ⊗ inverse (distances byte_ops f gs.now) }
{
    if y == 0 {
        return 0;
    }
    let d = tables.power_of(log_distances(f, gs, tables) % 255);
    tables.product(y, tables.inverse(d))
}

// Each of the values ys at the points fs is divided by the distances of its point from the points gs.
fn ratios(fs: &[u8], gs: &[u8], ys: &mut [u8], tables: &FieldTables)
    requires { (length fs.now ≡ length ys.old) × (length gs.now < 256) × Disjoint fs.now gs.now }
    ensures { ys.new ≡ ratios byte_ops inverse gs.now fs.now ys.old }
{
    for (i, y) in ys.iter_mut().enumerate() {
        *y = ratio(*y, fs[i], gs, tables);
    }
}

// The values out at the first w points, each over the distances of its point from the other points, become the polynomial through them.
fn through_ratios(w: usize, points: &[u8], out: &mut [u8], tables: &FieldTables)
    requires { (length out.old ≡ w) × (w ≤ length points.now) × (length points.now < 256)
        × Disjoint (take w points.now) (drop w points.now) }
    ensures { out.new ≡ interpolate byte_ops inverse (take w points.now)
        (ratios byte_ops inverse (drop w points.now) (take w points.now) out.old) }
{
    ratios(&points[..w], &points[w..], out, tables);
    polynomial::interpolate_at(&points[..w], out, tables);
}

// out, of w bytes, becomes P, for a vector x of at most w nonzero entries. The work area, as long as x, ends as zeros.
// P takes at each point of E the value of x there over the distances of the point from those outside E.
pub fn quotient(w: usize, x: &[u8], work: &mut [u8], out: &mut [u8], tables: &FieldTables)
    requires { Light w x.now × (1 ≤ w) × (length work.old ≡ length x.now) × (length out.old ≡ w) }
    ensures { (out.new ≡ quotient_of w x.now)
        × (work.new ≡ zeroed (length x.now) work.old) }
{
    let n = x.len();
    gather(w, x, x, true, out);
    split(w, x, work);
    through_ratios(w, work, out, tables);
    lists::zero_front(work, n);
}
