// The key digest (document 02, request 04): the set, the matrix and y as one string of 32 bytes. No message carries it yet.
#![tactic(auto)]

ghost use Rattle.std.specs.Prelude.{◌≡◌};
ghost use Rattle.lists.specs.Equal.{eq_list};
ghost use Rattle.shake256.specs.Fips.{SHAKE256};
ghost use Rattle.parameters.specs.Limits.{Within};
ghost use Rattle.parameters.specs.Set.{numbers_of};
ghost use Rattle.exchange.specs.Values.{key_of};
ghost use Rattle.key_digest.specs.KeyDigest.{key_digest};

use parameters::Parameters;
use parameters::set::numbers_of;
use strings::{begin, hash};

// The layer byte of the string of the key, which has no prefix.
const KEY: u8 = 9;

// The numbers of the parameters, one byte each.
pub fn bytes_of(p: Parameters) -> [u8; 5]
    requires { Within p }
    ensures { result ≡ numbers_of p }
{
    let n = numbers_of(p);
    [n[0] as u8, n[1] as u8, n[2] as u8, n[3] as u8, n[4] as u8]
}

// The digest of the parameters, the matrix and y.
pub fn key_digest(p: Parameters, matrix: &[u8], y: &[u8]) -> [u8; 32]
    requires { Within p }
    ensures { result ≡ key_digest SHAKE256 p (key_of matrix.now y.now) }
{
    let numbers = bytes_of(p);
    let start = begin(KEY, &[]);
    let mut digest = [0u8; 32];
    hash(start, &numbers, matrix, y, &mut digest);
    digest
}

// Is the digest of the parameters, the matrix and y the one held?
pub fn same_key(p: Parameters, matrix: &[u8], y: &[u8], held: &[u8]) -> bool
    requires { Within p }
    ensures { result ≡ eq_list (key_digest SHAKE256 p (key_of matrix.now y.now)) held.now }
{
    let digest = key_digest(p, matrix, y);
    lists::equal(&digest, held)
}
