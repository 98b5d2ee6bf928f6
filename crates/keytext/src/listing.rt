// The key listing: what `keylist` prints for what it reads (document 01, Key listing).
ghost use Rattle.std.specs.Prelude.{◌≡◌, ◌+◌, ◌*◌, ◌-◌, ◌≤◌, ◌<◌, length};
ghost use Rattle.polynomial.specs.Interpolant.{interpolant_of, vanishing_of};
ghost use Rattle.relation.specs.Key.{locator_of, quotient_of};
ghost use Rattle.parameters.specs.Limits.{Within};
ghost use Rattle.layout.specs.Layout.{y_length, matrix_length};
ghost use Rattle.keytext.specs.Listing.{locator_word, s_word, p_word, f_word, result_line, refused_line, key_lines, listing_of};
ghost use Rattle.keytext.specs.Listing.Laws.{Written, Weighted};
ghost use Rattle.lists.specs.Part.{put_at};
ghost use Rattle.relation.specs.Key.{vector_of};
ghost use Rattle.keytext.specs.Finish.{read_in, lengths_read, weighed, read_checks, finish_of};

use crate::KeyScan;
use answers::{Answer, Refusal, require};
use bytefield::FieldTables;
use layout::{LONGEST_Y, MOST_MATRIX, matrix_length, y_length};
use parameters::Parameters;
use parameters::set::parameters_of;

// The longest listing.
pub const LONGEST_LISTING: usize = 2_580;

// A line of a word and bytes in hex is written to out from index at on; the answer is the place behind it.
pub fn result_line(out: &mut [u8], at: usize, word: &[u8], s: &[u8]) -> usize
    requires { at + length word.now + 2 * length s.now + 2 ≤ length out.old }
    ensures written { Written out.old at (result_line word.now s.now) result out.new }
    ensures value { result ≡ at + length word.now + 2 * length s.now + 2 }
{
    lists::put_at(out, at, word);
    let a = at + word.len();
    lists::put_at(out, a, b"\t");
    let h = a + 1;
    text::print::put_hex(out, h, s);
    let e = h + 2 * s.len();
    lists::put_at(out, e, b"\n");
    e + 1
}

// The line of Q, which is made in q.
fn locator_line(
    out: &mut [u8],
    at: usize,
    w: usize,
    x: &[u8],
    q: &mut [u8],
    tables: &FieldTables,
) -> usize
    requires weighted { Weighted w x.now }
    requires room { (length q.old ≡ w + 1) × (at + 2 * w + 11 ≤ length out.old) }
    ensures written { Written out.old at (result_line locator_word (locator_of w x.now)) result out.new }
    ensures value { result ≡ at + 2 * w + 11 }
{
    key::locator(w, x, q, tables);
    result_line(out, at, b"locator", q)
}

// The line of S, which is made in s.
fn interpolant_line(
    out: &mut [u8],
    at: usize,
    x: &[u8],
    s: &mut [u8],
    tables: &FieldTables,
) -> usize
    requires { (length s.old ≡ length x.now) × (length x.now < 256) × (at + 2 * length x.now + 3 ≤ length out.old) }
    ensures written { Written out.old at (result_line s_word (interpolant_of x.now)) result out.new }
    ensures value { result ≡ at + 2 * length x.now + 3 }
{
    lists::copy(s, x);
    polynomial::interpolate(s, tables);
    result_line(out, at, b"S", s)
}

// The line of P, which is made in p.
fn quotient_line(
    out: &mut [u8],
    at: usize,
    w: usize,
    x: &[u8],
    work: &mut [u8],
    p: &mut [u8],
    tables: &FieldTables,
) -> usize
    requires weighted { Weighted w x.now }
    requires room { (length work.old ≡ length x.now) × (length p.old ≡ w) × (at + 2 * w + 3 ≤ length out.old) }
    ensures written { Written out.old at (result_line p_word (quotient_of w x.now)) result out.new }
    ensures value { result ≡ at + 2 * w + 3 }
{
    key::quotient(w, x, work, p, tables);
    result_line(out, at, b"P", p)
}

// The line of F, which is made in f.
fn vanishing_line(out: &mut [u8], at: usize, f: &mut [u8], tables: &FieldTables) -> usize
    requires { (0 < length f.old) × (length f.old ≤ 256) × (at + 2 * length f.old + 3 ≤ length out.old) }
    ensures written { Written out.old at (result_line f_word (vanishing_of (length f.old - 1))) result out.new }
    ensures value { result ≡ at + 2 * length f.old + 3 }
{
    polynomial::vanishing(f, tables);
    result_line(out, at, b"F", f)
}

// The five lines; Q, S, P and F are made in the lent slices.
fn key_lines(
    out: &mut [u8],
    w: usize,
    x: &[u8],
    q: &mut [u8],
    s: &mut [u8],
    p: &mut [u8],
    f: &mut [u8],
    tables: &FieldTables,
) -> usize
    requires weighted { Weighted w x.now }
    requires room { 2580 ≤ length out.old }
    requires q_len { (length q.old ≡ w + 1) × (length s.old ≡ length x.now) × (length p.old ≡ w) × (length f.old ≡ length x.now + 1) }
    ensures { Written out.old 0 (key_lines w x.now) result out.new }
{
    let a = result_line(out, 0, b"vector", x);
    let b = locator_line(out, a, w, x, q, tables);
    let c = interpolant_line(out, b, x, s, tables);
    let d = quotient_line(out, c, w, x, s, p, tables);
    vanishing_line(out, d, f, tables)
}

// The five lines, with room of its own for Q, S, P and F.
fn lines_of(out: &mut [u8], w: usize, x: &[u8], tables: &FieldTables) -> usize
    requires weighted { Weighted w x.now }
    requires room { 2580 ≤ length out.old }
    ensures { Written out.old 0 (key_lines w x.now) result out.new }
{
    // x has at most 255 entries, so S and P have at most 255 coefficients, Q and F one more
    let mut q = [0; 256];
    let mut s = [0; 255];
    let mut p = [0; 255];
    let mut f = [0; 256];
    let m = x.len();
    key_lines(
        out,
        w,
        x,
        &mut q[..w + 1],
        &mut s[..m],
        &mut p[..w],
        &mut f[..m + 1],
        tables,
    )
}

// The line of a refusal.
pub fn refused(out: &mut [u8], r: Refusal) -> usize
    requires { 12 ≤ length out.old }
    ensures { Written out.old 0 (refused_line r) result out.new }
{
    lists::put_at(out, 0, b"refused\t");
    let e = text::print::put_decimal(out, 8, usize::from(u8::from(r)));
    lists::put_at(out, e, b"\n");
    e + 1
}

// Was a field of the wanted length read, into a slice that holds it?
fn read_in(n: usize, held: usize, size: usize) -> bool
    ensures { result ≡ read_in n held size }
{
    n == size && size <= held
}

// Have the matrix, y and x_A the lengths that the parameters say?
fn lengths_read(p: Parameters, lengths: [usize; 3], matrix: usize, y: usize, x_a: usize) -> bool
    requires { Within p }
    ensures { result ≡ lengths_read p lengths matrix y x_a }
{
    read_in(lengths[0], matrix, matrix_length(p))
        && read_in(lengths[1], y, y_length(p))
        && read_in(lengths[2], x_a, p.k)
}

// The listing of a key of the right lengths; its vector is made in x.
fn weighed(
    w: usize,
    matrix: &[u8],
    y: &[u8],
    x_a: &[u8],
    x: &mut [u8],
    out: &mut [u8],
    tables: &FieldTables,
) -> usize
    requires room { 2580 ≤ length out.old }
    requires le_w { (1 ≤ w) × (w ≤ length x.old) × (length x.old < 256)
        × (length x.old ≡ length x_a.now + length y.now) × (length matrix.now ≡ length y.now * length x_a.now) }
    ensures { Written out.old 0 (weighed w (vector_of matrix.now y.now x_a.now)) result out.new }
{
    key::vector(x_a, matrix, y, x, tables);
    if !key::within_weight(w, x) {
        return refused(out, Refusal::Weight);
    }
    lines_of(out, w, x, tables)
}

// The listing of a key of the right lengths, with room of its own for x and the tables of the field.
fn listed(p: Parameters, matrix: &[u8], y: &[u8], x_a: &[u8], out: &mut [u8]) -> usize
    requires within { Within p }
    requires matrix_len { (length matrix.now ≡ matrix_length p) × (length y.now ≡ y_length p) × (length x_a.now ≡ p.k) × (2580 ≤ length out.old) }
    ensures { Written out.old 0 (weighed p.w (vector_of matrix.now y.now x_a.now))
        result out.new }
{
    let tables = FieldTables::new();
    let mut x = [0; 255];
    weighed(p.w, matrix, y, x_a, &mut x[..p.m], out, &tables)
}

// The checks 10, 1 and 2 of a text that was scanned into slices of these lengths, ended here.
pub fn read_checks(scan: KeyScan, matrix: usize, y: usize, x_a: usize) -> Answer
    ensures { result ≡ read_checks scan matrix y x_a }
{
    require(scan.complete(), Refusal::Malformed)?;
    let p = parameters_of(&scan.numbers);
    require(parameters::within_limits(p), Refusal::Parameter)?;
    require(
        lengths_read(p, scan.lengths, matrix, y, x_a),
        Refusal::Length,
    )
}

// The listing of a text that was scanned into the three slices, ended here: its bytes stand at the front of out, and the answer is how many they are.
pub fn finish(
    scan: KeyScan,
    matrix: &[u8],
    y: &[u8],
    x_a: &[u8],
    out: &mut [u8; LONGEST_LISTING],
) -> usize
    ensures { (result ≡ length (finish_of scan matrix.now y.now x_a.now))
        × (out.new ≡ put_at out.old 0 (finish_of scan matrix.now y.now x_a.now)) }
{
    if let Err(r) = read_checks(scan, matrix.len(), y.len(), x_a.len()) {
        return refused(out, r);
    }
    let p = parameters_of(&scan.numbers);
    let size = matrix_length(p);
    let rows = y_length(p);
    listed(p, &matrix[..size], &y[..rows], &x_a[..p.k], out)
}

// The listing of a whole input: its bytes stand at the front of out, and the answer is how many they are.
pub fn listing(input: &[u8], out: &mut [u8; LONGEST_LISTING]) -> usize
    ensures { (result ≡ length (listing_of input.now)) × (out.new ≡ put_at out.old 0 (listing_of input.now)) }
{
    let mut matrix = [0; MOST_MATRIX];
    let mut y = [0; LONGEST_Y];
    let mut x_a = [0; LONGEST_Y];
    let scan = KeyScan::new().feed(input, &mut matrix, &mut y, &mut x_a);
    finish(scan, &matrix, &y, &x_a, out)
}
