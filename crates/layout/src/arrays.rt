// Slices as arrays of a fixed length.
ghost use Rattle.std.specs.Prelude.{◌≡◌, length};

// A slice of N bytes as an array.
pub fn array<const N: usize>(s: &[u8]) -> [u8; N]
    requires { length s.now ≡ N }
    ensures { result ≡ s.now }
{
    let mut a = [0u8; N];
    lists::copy(&mut a, s);
    a
}
