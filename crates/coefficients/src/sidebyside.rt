// x of up to eight shares at once: byte i of a word is the entry of share i (crate packed).
ghost use Rattle.std.specs.Prelude.{◌≡◌, cond, [], map, ℕ, ◌+◌, ◌-◌, ◌*◌, ◌≤◌, ◌<◌, length, take, drop, replicate};
ghost use Rattle.lists.specs.Sum.{xor_list};
ghost use Rattle.relation.specs.Key.{rows};
ghost use Rattle.exchange.specs.Reading.{bytes_at};
ghost use Rattle.exchange.specs.Values.{key_of, x_of};
ghost use Rattle.packed.specs.Word.{scaled};
ghost use Rattle.packed.specs.Table.{multiples};
ghost use Rattle.packed.specs.Share.{share};
ghost use Rattle.coefficients.specs.Shares.{share_of};
ghost use Rattle.coefficients.specs.Asked.{GatherAsked, VectorsAsked};
ghost use Rattle.coefficients.specs.Spread.{spread};
ghost use Rattle.coefficients.specs.Columns.{column};

use layout::{at_x, share_length};
use parameters::Parameters;

// The words become the bytes from place `from` on of each of n shares, one share a byte of a word; the other bytes are zero.
fn gather(p: Parameters, n: usize, shares: &[u8], from: usize, words: &mut [u64])
    requires { GatherAsked p n shares.now from words.old }
    ensures { (i : ℕ) → share i words.new ≡ bytes_at (share_of p shares.now i) from (length words.old) }
{
    let count = words.len();
    let size = share_length(p);
    packed::clear(words);
    for i in 0..n {
        let a = i * size + from;
        packed::add_share(words, &shares[a..a + count], i);
    }
}

// The product of the bytes of v by column i of the matrix, with rows of k bytes, is added to out, where the table has the multiples of v.
fn add_column(out: &mut [u64], matrix: &[u8], k: usize, i: usize, table: &[u64; 32])
    requires { (length out.old * k ≤ length matrix.now) × (i < k) }
    ensures { (v : ℕ) → table.now ≡ multiples v
        → out.new ≡ xor_list out.old (map (scaled v) (column (length out.old) k i matrix.now)) }
{
    for (j, word) in out.iter_mut().enumerate() {
        *word ^= packed::times(table, matrix[j * k + i]);
    }
}

// The words behind the first k, which are zero, become H'x of each share, where x is its first k entries.
fn image(words: &mut [u64], k: usize, matrix: &[u8])
    requires { (k ≤ length words.old) × ((length words.old - k) * k ≤ length matrix.now)
        × (drop k words.old ≡ replicate (length words.old - k) 0) }
    ensures { (take k words.new ≡ take k words.old)
        × ((s : ℕ) → s < 8 → share s (drop k words.new)
        ≡ rows (length words.old - k) matrix.now (share s (take k words.old))) }
{
    for i in 0..k {
        let table = packed::multiples(words[i]);
        add_column(&mut words[k..], matrix, k, i, &table);
    }
}

// The byte b in all bytes of a word.
fn spread(b: u8) -> u64
    ensures { result ≡ spread b }
{
    u64::from(b) * 0x0101010101010101
}

// The entries y are added to each share.
fn add_to_all(words: &mut [u64], y: &[u8])
    requires { length y.now ≤ length words.old }
    ensures { words.new ≡ xor_list words.old (map spread y.now) }
{
    for (j, b) in y.iter().enumerate() {
        words[j] ^= spread(*b);
    }
}

// Where first, the entries y are added to each share.
fn add_where(first: bool, words: &mut [u64], y: &[u8])
    requires { length y.now ≤ length words.old }
    ensures { words.new ≡ xor_list words.old (cond first (map spread y.now) []) }
{
    if first {
        add_to_all(words, y);
    }
}

// The words become x of each of n shares: x_A, and behind it H'x_A, with y added where first. The bytes from n on
// are x of a share of zeros: zeros, with y behind x_A where first.
pub fn vectors(
    p: Parameters,
    n: usize,
    shares: &[u8],
    matrix: &[u8],
    y: &[u8],
    first: bool,
    words: &mut [u64],
)
    requires { VectorsAsked p n shares.now matrix.now y.now words.old }
    ensures { (i : ℕ) → i < 8 → share i words.new
        ≡ x_of p (key_of matrix.now y.now) first (share_of p shares.now i) }
{
    let k = p.k;
    let at = at_x(p);
    gather(p, n, shares, at, &mut words[..k]);
    packed::clear(&mut words[k..]);
    image(words, k, matrix);
    add_where(first, &mut words[k..], y);
}
