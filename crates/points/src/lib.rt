// The points field: four bytes b0 b1 b2 b3 stand for b0 + b1·X + (b2 + b3·X)·Z, where X² = X + 20 and Z² = Z + 20·X (hexadecimal).
// A product is read from a table of the multiples of one factor. The field tables are made once by the caller and lent.
#![tactic(auto)]

pub mod encoding;

ghost use Rattle.std.specs.Prelude.{◌≡◌, ◌⊎◌, ◌+◌, ◌<◌, ◌≤◌, length};
ghost use Rattle.lists.specs.Part.{put_at};
ghost use Rattle.tower.specs.Field.{Point, point, bytes_of};
ghost use Rattle.packed.specs.Word.{bytes};
ghost use Rattle.packed.specs.Table.{multiples};
ghost use Rattle.exchange.specs.Reading.{◌⊞◌, ◌⊠◌};
ghost use Rattle.points.specs.Multiples.{word_of, by_x, by_z, multiples_of, Lower, Read, Multiplies};

use bytefield::FieldTables;

// A product of points, and how many products were made up to it.
#[derive(Clone, Copy)]
pub struct Counted {
    pub point: [u8; 4],
    pub made: usize,
}

// The sum of two points.
pub fn sum(a: [u8; 4], b: [u8; 4]) -> [u8; 4]
    ensures { result ≡ bytes_of (point a ⊞ point b) }
{
    [
        bytefield::sum(a[0], b[0]),
        bytefield::sum(a[1], b[1]),
        bytefield::sum(a[2], b[2]),
        bytefield::sum(a[3], b[3]),
    ]
}

// A byte as a word.
fn wide(b: u8) -> u64
    ensures { (result ≡ b) × (result < 256) }
{
    u64::from(b)
}

// Four bytes as the low bytes of a word.
pub fn word_of(a: [u8; 4]) -> u64
    ensures { result ≡ word_of (point a) }
{
    u64::from(u32::from_le_bytes(a))
}

// The point whose four bytes are the low bytes of a word.
pub fn point_of(w: u64) -> [u8; 4]
    ensures { result ≡ bytes 4 w }
{
    let [b0, b1, b2, b3, ..] = w.to_le_bytes();
    [b0, b1, b2, b3]
}

// What the table that starts at place at gives for the byte c.
fn read_at(table: &[u64], at: usize, c: u8) -> u64
    requires { (at ≤ 96) × (at + 32 ≤ length table.now) }
    ensures { Read table.now at c result }
{
    table[at + (c % 16) as usize] ^ table[at + 16 + (c / 16) as usize]
}

// The product of the four bytes a with a point, from the four tables of the point.
fn whole_product(a: [u8; 4], table: &[u64]) -> u64
    requires { 128 ≤ length table.now }
    ensures { (b : Point) → table.now ≡ multiples_of b → result ≡ word_of (point a ⊠ b) }
{
    let low = read_at(table, 0, a[0]) ^ read_at(table, 32, a[1]);
    low ^ read_at(table, 64, a[2]) ^ read_at(table, 96, a[3])
}

// The product of the four bytes a with a point, by the shorter way where a is a byte.
fn by_table(a: [u8; 4], table: &[u64]) -> u64
    requires { (32 ≤ length table.now) × ((128 ≤ length table.now) ⊎ Lower a) }
    ensures { (b : Point) → Multiplies table.now a b → result ≡ word_of (point a ⊠ b) }
{
    if wide(a[1]) + wide(a[2]) + wide(a[3]) != 0 {
        return whole_product(a, table);
    }
    read_at(table, 0, a[0])
}

// The product of the four bytes a with the point of which the table has the multiples, and the count one higher. The steps by X and Z that
// make a table are not counted; every other product of the points field is made here.
pub fn counted_product(a: [u8; 4], table: &[u64], made: usize) -> Counted
    requires { (32 ≤ length table.now) × ((128 ≤ length table.now) ⊎ Lower a) × (made < 18446744073709551615) }
    ensures { ((b : Point) → Multiplies table.now a b → result.point ≡ bytes_of (point a ⊠ b)) × (result.made ≡ made + 1) }
{
    Counted {
        point: point_of(by_table(a, table)),
        made: made + 1,
    }
}

// The product of the four bytes a with the point of which the table has all multiples.
pub fn product_by(a: [u8; 4], table: &[u64], made: usize) -> Counted
    requires { (128 ≤ length table.now) × (made < 18446744073709551615) }
    ensures { ((b : Point) → table.now ≡ multiples_of b → result.point ≡ bytes_of (point a ⊠ b)) × (result.made ≡ made + 1) }
{
    counted_product(a, table, made)
}

// b·X.
fn by_x(b: [u8; 4], tables: &FieldTables) -> [u8; 4]
    ensures { result ≡ bytes_of (point b ⊠ by_x) }
{
    [
        tables.product(b[1], 0x20),
        bytefield::sum(b[0], b[1]),
        tables.product(b[3], 0x20),
        bytefield::sum(b[2], b[3]),
    ]
}

// b·Z; 6c is the square of 20.
fn by_z(b: [u8; 4], tables: &FieldTables) -> [u8; 4]
    ensures { result ≡ bytes_of (point b ⊠ by_z) }
{
    [
        tables.product(b[3], 0x6c),
        tables.product(bytefield::sum(b[2], b[3]), 0x20),
        bytefield::sum(b[0], b[2]),
        bytefield::sum(b[1], b[3]),
    ]
}

// The multiples of the point b by bytes are written to out from place at on, entry by entry: copy_from_slice compares addresses, which
// tools/retarget refuses, and takes twice the instructions here.
fn put_multiples(out: &mut [u64], at: usize, b: [u8; 4])
    requires { at + 32 ≤ length out.old }
    ensures { out.new ≡ put_at out.old at (multiples (word_of (point b))) }
{
    let table = packed::multiples(word_of(b));
    for (i, entry) in table.iter().enumerate() {
        out[at + i] = *entry;
    }
}

// out becomes the multiples of a point: by the steps of the tower, X and Z, and by bytes.
pub fn multiples_of(out: &mut [u64], b: [u8; 4], tables: &FieldTables)
    requires { length out.old ≡ 128 }
    ensures { out.new ≡ multiples_of (point b) }
{
    let x = by_x(b, tables);
    let z = by_z(b, tables);
    let xz = by_z(x, tables);
    put_multiples(out, 0, b);
    put_multiples(out, 32, x);
    put_multiples(out, 64, z);
    put_multiples(out, 96, xz);
}

// The product of two points, by the multiples of the second.
pub fn product(a: [u8; 4], b: [u8; 4], tables: &FieldTables) -> [u8; 4]
    ensures { result ≡ bytes_of (point a ⊠ point b) }
{
    let mut table = [0u64; 128];
    multiples_of(&mut table, b, tables);
    product_by(a, &table, 0).point
}
