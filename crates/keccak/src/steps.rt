// The step mappings of FIPS 202, 3.2, as straight lines over the 25 lanes. The order of their statements is chosen for what
// the compiler makes of it on both cores.
ghost use Rattle.std.specs.Prelude.{◌≡◌, [], ◌∷◌, ◌<◌};
ghost use Rattle.fips.specs.Steps as spec;
ghost use Rattle.keccak.specs.Planes.{chi_iota};

use crate::tables::OFFSETS;

// The bits of x moved up by r places, those past the top coming in below: a helper of shifts, as the form of document 01 is.
fn rotated(x: u64, r: u32) -> u64
    requires { r < 64 }
    ensures { result ≡ spec.rotl x r }
{
    if r == 0 {
        x
    } else {
        (x << r) | (x >> (64 - r))
    }
}

// The xor of the five lanes of each column (3.2.1, step 1).
fn columns(a: [u64; 25]) -> [u64; 5]
    ensures { result ≡ spec.tab 5 (spec.column a) }
{
    [
        a[0] ^ a[5] ^ a[10] ^ a[15] ^ a[20],
        a[1] ^ a[6] ^ a[11] ^ a[16] ^ a[21],
        a[2] ^ a[7] ^ a[12] ^ a[17] ^ a[22],
        a[3] ^ a[8] ^ a[13] ^ a[18] ^ a[23],
        a[4] ^ a[9] ^ a[14] ^ a[19] ^ a[24],
    ]
}

// 3.2.1: each lane with the column before it and, rotated by one, the column after it.
pub fn theta(a: [u64; 25]) -> [u64; 25]
    ensures { result ≡ spec.θ a }
{
    let c = columns(a);
    let d0 = c[4] ^ rotated(c[1], 1);
    let d1 = c[0] ^ rotated(c[2], 1);
    let d2 = c[1] ^ rotated(c[3], 1);
    let d3 = c[2] ^ rotated(c[4], 1);
    let d4 = c[3] ^ rotated(c[0], 1);
    [
        a[0] ^ d0,
        a[1] ^ d1,
        a[2] ^ d2,
        a[3] ^ d3,
        a[4] ^ d4,
        a[5] ^ d0,
        a[6] ^ d1,
        a[7] ^ d2,
        a[8] ^ d3,
        a[9] ^ d4,
        a[10] ^ d0,
        a[11] ^ d1,
        a[12] ^ d2,
        a[13] ^ d3,
        a[14] ^ d4,
        a[15] ^ d0,
        a[16] ^ d1,
        a[17] ^ d2,
        a[18] ^ d3,
        a[19] ^ d4,
        a[20] ^ d0,
        a[21] ^ d1,
        a[22] ^ d2,
        a[23] ^ d3,
        a[24] ^ d4,
    ]
}

// 3.2.4 on a plane: each lane with the product of the next one, complemented, and the one after that. c is added to the first
// lane (3.2.5).
fn chi_iota(b: [u64; 5], c: u64) -> [u64; 5]
    ensures { result ≡ chi_iota b c }
{
    let e3 = b[3] ^ (!b[4] & b[0]);
    let e4 = b[4] ^ (!b[0] & b[1]);
    let e2 = b[2] ^ (!b[3] & b[4]);
    let e0 = b[0] ^ (!b[1] & b[2]) ^ c;
    let e1 = b[1] ^ (!b[2] & b[3]);
    [e0, e1, e2, e3, e4]
}

// 3.2.2 to 3.2.5, plane by plane from the last one to the first, so that few lanes are at hand at once: lane (x, y) after ρ
// and π is lane (x + 3y, x) of a, rotated by its offset; then χ, and the round constant c goes into lane (0, 0).
pub fn planes(a: [u64; 25], c: u64) -> [u64; 25]
    ensures { result ≡ spec.ι c (spec.χ (spec.π (spec.ρ a))) }
{
    let b21 = rotated(a[8], OFFSETS[8]);
    let b22 = rotated(a[14], OFFSETS[14]);
    let b23 = rotated(a[15], OFFSETS[15]);
    let b24 = rotated(a[21], OFFSETS[21]);
    let b20 = rotated(a[2], OFFSETS[2]);
    let p4 = chi_iota([b20, b21, b22, b23, b24], 0);
    let b16 = rotated(a[5], OFFSETS[5]);
    let b17 = rotated(a[11], OFFSETS[11]);
    let b18 = rotated(a[17], OFFSETS[17]);
    let b19 = rotated(a[23], OFFSETS[23]);
    let b15 = rotated(a[4], OFFSETS[4]);
    let p3 = chi_iota([b15, b16, b17, b18, b19], 0);
    let b11 = rotated(a[7], OFFSETS[7]);
    let b12 = rotated(a[13], OFFSETS[13]);
    let b13 = rotated(a[19], OFFSETS[19]);
    let b14 = rotated(a[20], OFFSETS[20]);
    let b10 = rotated(a[1], OFFSETS[1]);
    let p2 = chi_iota([b10, b11, b12, b13, b14], 0);
    let b6 = rotated(a[9], OFFSETS[9]);
    let b7 = rotated(a[10], OFFSETS[10]);
    let b8 = rotated(a[16], OFFSETS[16]);
    let b9 = rotated(a[22], OFFSETS[22]);
    let b5 = rotated(a[3], OFFSETS[3]);
    let p1 = chi_iota([b5, b6, b7, b8, b9], 0);
    let b1 = rotated(a[6], OFFSETS[6]);
    let b2 = rotated(a[12], OFFSETS[12]);
    let b3 = rotated(a[18], OFFSETS[18]);
    let b4 = rotated(a[24], OFFSETS[24]);
    let b0 = rotated(a[0], OFFSETS[0]);
    let p0 = chi_iota([b0, b1, b2, b3, b4], c);
    [
        p0[0], p0[1], p0[2], p0[3], p0[4], p1[0], p1[1], p1[2], p1[3], p1[4], p2[0], p2[1], p2[2],
        p2[3], p2[4], p3[0], p3[1], p3[2], p3[3], p3[4], p4[0], p4[1], p4[2], p4[3], p4[4],
    ]
}
