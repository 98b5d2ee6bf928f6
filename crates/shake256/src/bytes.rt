// Bytes of slices and of the state's lanes (FIPS 202, B.1: the lowest byte first).
ghost use Rattle.std.specs.Prelude.{◌≡◌, ◌*◌, ◌≤◌, ◌<◌, ◌++◌, length, take, drop};
ghost use Rattle.fips.specs.Bytes as fips;
ghost use Rattle.shake256.specs.Bytes as spec;

// The lane that the first eight bytes of s make.
pub fn word(s: &[u8]) -> u64
    requires { 8 ≤ length s.now }
    ensures { result ≡ fips.word (take 8 s.now) }
{
    u64::from_le_bytes([s[0], s[1], s[2], s[3], s[4], s[5], s[6], s[7]])
}

// Byte j of the lane w.
pub fn byte_of(w: u64, j: usize) -> u8
    requires { j < 8 }
    ensures { result ≡ fips.byte_of w j }
{
    w.to_le_bytes()[j]
}

// The eight bytes of the lane w go to the front of out.
pub fn store(w: u64, out: &mut [u8])
    requires { 8 ≤ length out.old }
    ensures { out.new ≡ spec.bytes_of w ++ drop 8 out.old }
{
    let bytes = w.to_le_bytes();
    for j in 0..8 {
        out[j] = bytes[j];
    }
}

// The byte v is xored into byte `at` of the state.
pub fn xor_byte(a: &mut [u64; 25], at: usize, v: u8)
    requires { at < 25 * 8 }
    ensures { a.new ≡ spec.xor_at a.old at v }
{
    a[at / 8] ^= u64::from(v) << (8 * (at % 8));
}
