// SHAKE256 of FIPS 202: a sponge by value that absorbs and squeezes slices piece by piece, and the whole in one call.
#![tactic(auto)]

mod bytes;

ghost use Rattle.std.specs.Prelude.{◌≡◌, ◌<◌, length};
ghost use Rattle.fips.specs.Parameters.{rate};
ghost use Rattle.fips.specs.Permutation.{keccak_f};
ghost use Rattle.shake256.specs.Fips.{SHAKE256};
ghost use Rattle.shake256.specs.Stream as spec;
ghost use Rattle.shake256.specs.Turns.{Taken, Given};

use crate::bytes::{byte_of, store, word, xor_byte};
use keccak::permute;

// The bytes of a block: the capacity is 512 bits (5.2, 6.2).
const RATE: usize = 136;
// The suffix 1111 of SHAKE and the first 1 of pad10*1 (6.2, B.2).
const DOMAIN: u8 = 0x1f;
// The last 1 of pad10*1 (B.2).
const FINAL: u8 = 0x80;

// A sponge: the state's 25 lanes, and the place of the next byte in the block. A place at or past the rate is a full
// block, which is permuted when the next byte is asked of it.
#[derive(Clone, Copy)]
pub struct Sponge {
    pub lanes: [u64; 25],
    pub at: usize,
}

// The first bytes of s go into the block from byte `at` on: the eight of a lane, or one. Answers how many.
fn take_some(lanes: &mut [u64; 25], at: usize, s: &[u8]) -> usize
    requires { (at < rate) × (0 < length s.now) }
    ensures { Taken at result s.now lanes.old lanes.new }
{
    if at % 8 == 0 && 8 <= s.len() {
        lanes[at / 8] ^= word(s);
        8
    } else {
        xor_byte(lanes, at, s[0]);
        1
    }
}

// Bytes of the block from byte `at` on go to the front of out: the eight of a lane, or one. Answers how many.
fn give_some(lanes: &[u64; 25], at: usize, out: &mut [u8]) -> usize
    requires { (at < rate) × (0 < length out.old) }
    ensures { Given at result lanes.now out.old out.new }
{
    let w = lanes[at / 8];
    if at % 8 == 0 && 8 <= out.len() {
        store(w, out);
        8
    } else {
        out[0] = byte_of(w, at % 8);
        1
    }
}

// The lanes go through the permutation, in place: the one place where it is called.
fn permute_lanes(lanes: &mut [u64; 25])
    ensures { lanes.new ≡ keccak_f lanes.old }
{
    let next = permute(*lanes);
    *lanes = next;
}

impl Sponge {
    // The sponge that has absorbed nothing.
    pub fn new() -> Self
        ensures { result ≡ spec.start }
    {
        Sponge {
            lanes: [0; 25],
            at: 0,
        }
    }

    // A full block goes through the permutation, so that there is room in it, or bytes to give.
    fn make_ready(&mut self)
        ensures { self.new ≡ spec.ready self.old }
    {
        if RATE <= self.at {
            permute_lanes(&mut self.lanes);
            self.at = 0;
        }
    }

    // The sponge with the bytes of s absorbed.
    pub fn absorb(self, s: &[u8]) -> Self
        ensures { result ≡ spec.absorbed self s.now }
    {
        let mut t = self;
        let mut rest = s;
        while !rest.is_empty() {
            t.make_ready();
            let n = take_some(&mut t.lanes, t.at, rest);
            t.at += n;
            rest = &rest[n..];
        }
        t
    }

    // The sponge with the padding absorbed, ready to be squeezed.
    pub fn finish(self) -> Self
        ensures { result ≡ spec.finished self }
    {
        let mut t = self;
        t.make_ready();
        xor_byte(&mut t.lanes, t.at, DOMAIN);
        xor_byte(&mut t.lanes, RATE - 1, FINAL);
        t.at = RATE;
        t
    }

    // Fills out with the next bytes of output.
    pub fn squeeze(self, out: &mut [u8]) -> Self
        ensures { (out.new ≡ spec.squeezed self (length out.old)) × (result ≡ spec.after self (length out.old)) }
    {
        let mut t = self;
        // By an index: of a `&mut` that moves on, as in `absorb`, the proof does not know what was written before it.
        let mut i: usize = 0;
        while i < out.len() {
            t.make_ready();
            let n = give_some(&t.lanes, t.at, &mut out[i..]);
            t.at += n;
            i += n;
        }
        t
    }
}

// SHAKE256 of a message that is at hand whole: fills output.
pub fn shake256(message: &[u8], output: &mut [u8])
    ensures { output.new ≡ SHAKE256 message.now (length output.old) }
{
    Sponge::new().absorb(message).finish().squeeze(output);
}
