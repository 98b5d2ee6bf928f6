// Byte products over GF(256) on eight bytes at once: byte i of a word is the entry of share i.
#![tactic(auto)]

ghost use Rattle.std.specs.Prelude.{◌≡◌, map, ℕ, ◌≤◌, ◌<◌, length, replicate};
ghost use Rattle.lists.specs.Sum.{xor_list};
ghost use Rattle.bytefield.specs.Product.{◌⊗◌};
ghost use Rattle.packed.specs.Word.{bytes, scaled};
ghost use Rattle.packed.specs.Table.{multiples};
ghost use Rattle.packed.specs.Share.{byte_at, share, placed};

// All words become zero.
pub fn clear(words: &mut [u64])
    ensures { words.new ≡ replicate (length words.old) 0 }
{
    for w in words.iter_mut() {
        *w = 0;
    }
}

// Each byte of v times 02: shifted left within the byte, and 1b added where its highest bit falls out.
fn doubled(v: u64) -> u64
    ensures { result ≡ scaled v 2 }
{
    ((v << 1) & 0xfefefefefefefefe) ^ (((v >> 7) & 0x0101010101010101) * 0x1b)
}

// The multiples of the bytes of v by 0 to 15, and by 0, 16, .. 240. A caller makes the table once and lends it.
pub fn multiples(v: u64) -> [u64; 32]
    ensures { result ≡ multiples v }
{
    let v2 = doubled(v);
    let v4 = doubled(v2);
    let v8 = doubled(v4);
    let v16 = doubled(v8);
    let v32 = doubled(v16);
    let v64 = doubled(v32);
    let v128 = doubled(v64);
    [
        0,
        v,
        v2,
        v2 ^ v,
        v4,
        v4 ^ v,
        v4 ^ v2,
        v4 ^ (v2 ^ v),
        v8,
        v8 ^ v,
        v8 ^ v2,
        v8 ^ (v2 ^ v),
        v8 ^ v4,
        v8 ^ (v4 ^ v),
        v8 ^ (v4 ^ v2),
        v8 ^ (v4 ^ (v2 ^ v)),
        0,
        v16,
        v32,
        v32 ^ v16,
        v64,
        v64 ^ v16,
        v64 ^ v32,
        v64 ^ (v32 ^ v16),
        v128,
        v128 ^ v16,
        v128 ^ v32,
        v128 ^ (v32 ^ v16),
        v128 ^ v64,
        v128 ^ (v64 ^ v16),
        v128 ^ (v64 ^ v32),
        v128 ^ (v64 ^ (v32 ^ v16)),
    ]
}

// Each byte of v times c, where the table has the multiples of v.
pub fn times(table: &[u64; 32], c: u8) -> u64
    ensures word { (v : ℕ) → table.now ≡ multiples v → result ≡ scaled v c }
    ensures bytes { (v : ℕ) → table.now ≡ multiples v → bytes 8 result ≡ map (λ b. b ⊗ c) (bytes 8 v) }
{
    table[(c % 16) as usize] ^ table[16 + (c / 16) as usize]
}

// The product of the bytes of v by entry j of `by` is added to entry j of acc, where the table has the multiples of v.
pub fn add_multiples(acc: &mut [u64], by: &[u8], table: &[u64; 32])
    requires { length by.now ≤ length acc.old }
    ensures { (v : ℕ) → table.now ≡ multiples v → acc.new ≡ xor_list acc.old (map (scaled v) by.now) }
{
    for (j, b) in by.iter().enumerate() {
        acc[j] ^= times(table, *b);
    }
}

// The byte b at byte i of a word.
pub fn placed(b: u8, i: usize) -> u64
    requires { i < 8 }
    ensures { result ≡ placed i b }
{
    (b as u64) << (8 * i)
}

// Byte i of a word.
fn byte_at(w: u64, i: usize) -> u8
    requires { i < 8 }
    ensures { result ≡ byte_at i w }
{
    ((w >> (8 * i)) % 256) as u8
}

// The entries x are added to share i.
pub fn add_share(words: &mut [u64], x: &[u8], i: usize)
    requires { (length x.now ≤ length words.old) × (i < 8) }
    ensures { words.new ≡ xor_list words.old (map (placed i) x.now) }
{
    for (j, b) in x.iter().enumerate() {
        words[j] ^= placed(*b, i);
    }
}

// out becomes the entries of share i.
pub fn share(words: &[u64], i: usize, out: &mut [u8])
    requires { (length words.now ≡ length out.old) × (i < 8) }
    ensures { out.new ≡ share i words.now }
{
    for (j, w) in words.iter().enumerate() {
        out[j] = byte_at(*w, i);
    }
}
