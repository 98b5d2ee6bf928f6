// Polynomials over bytes, in place. A polynomial is the slice of its coefficients, lowest first.
// The field tables are made once a call and lent down.
#![tactic(auto)]

ghost use Rattle.std.specs.Prelude.{◌≡◌, ◌∷◌, ◌++◌, ◌+◌, ◌-◌, ◌<◌, ◌≤◌, length, take, drop};
ghost use Rattle.algebra.specs.Polynomial.{expand, slopes, interpolate, vanishing};
ghost use Rattle.bytefield.specs.Product.{byte_ops};
ghost use Rattle.bytefield.specs.Inverse.{inverse};
ghost use Rattle.polynomial.specs.Interpolant.{ascending, interpolation_points, interpolant_of, vanishing_of};
ghost use Rattle.polynomial.specs.Loops.Newton.{newton_form, expanded};

use bytefield::FieldTables;

// p, which is y and then q, becomes y + (X + f)·q.
pub fn expand(p: &mut [u8], f: u8, tables: &FieldTables)
    ensures { p.new ≡ expand byte_ops f p.old }
{
    for i in 1..p.len() {
        p[i - 1] = bytefield::sum(p[i - 1], tables.product(f, p[i]));
    }
}

// The values zs at the points gs become their slopes from the value y at f.
fn slopes(zs: &mut [u8], gs: &[u8], f: u8, y: u8, tables: &FieldTables)
    requires { length gs.now ≡ length zs.old }
    ensures { zs.new ≡ slopes byte_ops inverse f y gs.now zs.old }
{
    for (i, g) in gs.iter().enumerate() {
        zs[i] = tables.product(
            bytefield::sum(zs[i], y),
            tables.inverse(bytefield::sum(*g, f)),
        );
    }
}

// The values x at the points become the coefficients of Newton's form.
fn to_newton(points: &[u8], x: &mut [u8], tables: &FieldTables)
    requires { length points.now ≡ length x.old }
    ensures { x.new ≡ newton_form points.now x.old }
{
    for (j, f) in points.iter().enumerate() {
        let y = x[j];
        slopes(&mut x[j + 1..], &points[j + 1..], *f, y, tables);
    }
}

// The coefficients of Newton's form become those of the polynomial.
fn from_newton(points: &[u8], x: &mut [u8], tables: &FieldTables)
    requires { length points.now ≡ length x.old }
    ensures { x.new ≡ expanded points.now x.old }
{
    for j in (0..x.len()).rev() {
        expand(&mut x[j..], points[j], tables);
    }
}

// The values x at the points become the coefficients of the polynomial through them.
pub fn interpolate_at(points: &[u8], x: &mut [u8], tables: &FieldTables)
    requires { length points.now ≡ length x.old }
    ensures { x.new ≡ interpolate byte_ops inverse points.now x.old }
{
    to_newton(points, x, tables);
    from_newton(points, x, tables);
}

// The interpolation points of a longest x.
pub fn points() -> [u8; 255]
    ensures { result ≡ interpolation_points 255 }
{
    let mut fs = [0; 255];
    for (i, f) in fs.iter_mut().enumerate() {
        *f = i as u8 + 1;
    }
    fs
}

// The vector x, of at most 255 entries, becomes S.
pub fn interpolate(x: &mut [u8], tables: &FieldTables)
    requires { length x.old < 256 }
    ensures { x.new ≡ interpolant_of x.old }
{
    let n = x.len();
    let fs = points();
    interpolate_at(&fs[..n], x, tables);
}

// The polynomial behind place at is multiplied by X + f, and starts at place at.
pub fn add_root(p: &mut [u8], at: usize, f: u8, tables: &FieldTables)
    requires { at < length p.old }
    ensures { p.new ≡ take at p.old ++ expand byte_ops f (0 ∷ drop (at + 1) p.old) }
{
    p[at] = 0;
    expand(&mut p[at..], f, tables);
}

// out, of n + 1 bytes, becomes the product of X + g over the n bytes g above f.
pub fn vanishing_above(out: &mut [u8], f: u8, tables: &FieldTables)
    requires { (0 < length out.old) × (f + length out.old ≤ 256) }
    ensures { out.new ≡ vanishing byte_ops (ascending (f + 1) (length out.old - 1)) }
{
    let n = out.len() - 1;
    let mut g = f;
    out[n] = 1;
    for at in (0..n).rev() {
        g += 1;
        add_root(out, at, g, tables);
    }
}

// out, of m + 1 bytes, becomes F.
pub fn vanishing(out: &mut [u8], tables: &FieldTables)
    requires { (0 < length out.old) × (length out.old ≤ 256) }
    ensures { out.new ≡ vanishing_of (length out.old - 1) }
{
    vanishing_above(out, 0, tables);
}
