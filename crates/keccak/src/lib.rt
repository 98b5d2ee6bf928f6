// The permutation KECCAK-f[1600] of FIPS 202 on 25 lanes: lane (x, y) stands at x + 5 * y.
#![tactic(auto)]

mod steps;
mod tables;

ghost use Rattle.std.specs.Prelude.{◌≡◌};
ghost use Rattle.fips.specs.Permutation as spec;

use crate::steps::{planes, theta};
use crate::tables::ROUND_CONSTANTS;

// One round (3.3) with the round constant c.
fn round(a: [u64; 25], c: u64) -> [u64; 25]
    ensures { result ≡ spec.round c a }
{
    planes(theta(a), c)
}

// KECCAK-f[1600] (3.4): the 24 rounds. The table is copied once, before the loop reads it.
pub fn permute(a: [u64; 25]) -> [u64; 25]
    ensures { result ≡ spec.keccak_f a }
{
    let constants = ROUND_CONSTANTS;
    let mut b = a;
    for c in constants {
        let next = round(b, c);
        b = next;
    }
    b
}
