// The power sums of up to eight vectors at once, side by side in words, in two stages. In a list of sums the last is that of exponent 0.
ghost use Rattle.std.specs.Prelude.{◌≡◌, ℕ, ◌+◌, ◌-◌, ◌*◌, ◌/◌, ◌%◌, ◌<◌, ◌≤◌, length, get_or};
ghost use Rattle.bytefield.specs.Powers.{power};
ghost use Rattle.packed.specs.Table.{multiples};
ghost use Rattle.packed.specs.Share.{share};
ghost use Rattle.interpolants.specs.PowerSum.{times_each, PowerSums};
ghost use Rattle.interpolants.specs.Words.{words_of};
ghost use Rattle.interpolants.specs.Added.{Added, spaced};
ghost use Rattle.interpolants.specs.Classes.{Asked, scaled_by, progression, class_sum, class_term};

use bytefield::FieldTables;

// The bytes of v times 03 to the s, s + e, s + 2e and so on, n of them, are added to the entries of acc for the exponents o, o + step and so on,
// where the table has the multiples of v.
fn add_powers(
    acc: &mut [u64],
    o: usize,
    step: usize,
    n: usize,
    table: &[u64; 32],
    s: usize,
    e: usize,
    tables: &FieldTables,
)
    requires { (s < 255) × (e < 255) × (step < 256) × (length acc.old < 256) × ((j : ℕ) → j < n → o + step * j < length acc.old) }
    ensures { (v : ℕ) → table.now ≡ multiples v
        → Added (length acc.old) (spaced (length acc.old) o step (progression v s e) n) acc.old acc.new }
{
    let mut k = s;
    for j in 0..n {
        let i = acc.len() - 1 - (o + step * j);
        acc[i] ^= packed::times(table, tables.power_of(k));
        k = bytefield::wrapped(k + e);
    }
}

// The entries j of n rows of m bytes, side by side.
fn side_by_side(rows: &[u8], n: usize, m: usize, j: usize) -> u64
    requires { (n ≤ 8) × (length rows.now ≡ n * m) × (m < 256) × (j < m) }
    ensures { result ≡ get_or (words_of rows.now n m) j 0 }
{
    let mut w: u64 = 0;
    for i in 0..n {
        w ^= packed::placed(rows[i * m + j], i);
    }
    w
}

// The first stage for the byte 03 to the e: its entries, scaled, times its powers are added to c. Past the ends of the rows there is nothing to add.
fn add_entry(c: &mut [u64], rows: &[u8], n: usize, scales: &[u8], e: usize, tables: &FieldTables)
    requires { Asked rows.now n scales.now × (length c.old ≡ 17) × (e < 255) }
    ensures { Added 17 (λ k. progression (scaled_by rows.now n scales.now e) 0 e (16 - k)) c.old c.new }
{
    let m = scales.len();
    let f = tables.power_of(e);
    let j = f as usize - 1;
    if j < m {
        let s = tables.log_of(scales[j]);
        let table = packed::multiples(side_by_side(rows, n, m, j));
        add_powers(c, 0, 1, 17, &table, s, e, tables);
    }
}

// The first stage for a class.
fn gather(c: &mut [u64], rows: &[u8], n: usize, scales: &[u8], class: usize, tables: &FieldTables)
    requires { Asked rows.now n scales.now × (length c.old ≡ 17) × (class < 15) }
    ensures { Added 17 (λ k. class_sum (scaled_by rows.now n scales.now) class (16 - k)) c.old c.new }
{
    for q in 0..17 {
        add_entry(c, rows, n, scales, class + 15 * q, tables);
    }
}

// The second stage: the entry of c for the exponent o times 03 to the 0, e, 2e and so on is added to those of a for o, o + 17, o + 34 and so on.
fn scatter(a: &mut [u64], c: &[u64], e: usize, tables: &FieldTables)
    requires { (length a.old ≡ 255) × (length c.now ≡ 17) × (e < 255) }
    ensures { Added 255 (λ k. progression (get_or c.now (16 - (254 - k) % 17) 0) 0 e ((254 - k) / 17)) a.old a.new }
{
    for o in 0..17 {
        let table = packed::multiples(c[16 - o]);
        add_powers(a, o, 17, 15, &table, 0, e, tables);
    }
}

// Both stages for a class.
fn add_class(
    a: &mut [u64],
    rows: &[u8],
    n: usize,
    scales: &[u8],
    class: usize,
    tables: &FieldTables,
)
    requires { Asked rows.now n scales.now × (length a.old ≡ 255) × (class < 15) }
    ensures { Added 255 (λ k. class_term (scaled_by rows.now n scales.now) class (254 - k)) a.old a.new }
{
    let mut c = [0u64; 17];
    gather(&mut c, rows, n, scales, class, tables);
    scatter(a, &c, 17 * class, tables);
}

// a becomes the power sums of n rows side by side, each entry scaled.
pub fn power_sums(a: &mut [u64], rows: &[u8], n: usize, scales: &[u8], tables: &FieldTables)
    requires { Asked rows.now n scales.now × (length a.old ≡ 255) }
    ensures { (i : ℕ) → i < 8
        → PowerSums (times_each (share i (words_of rows.now n (length scales.now))) scales.now) (share i a.new) }
{
    packed::clear(a);
    for class in 0..15 {
        add_class(a, rows, n, scales, class, tables);
    }
}
