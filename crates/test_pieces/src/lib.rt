// SHAKE256 and its permutation for C, as the comparison and the timing under compare/ and bench/ link them.
#![tactic(auto)]

ghost use Rattle.std.specs.Prelude.{◌≡◌, ◌≤◌, length};
ghost use Rattle.fips.specs.Permutation.{keccak_f};
ghost use Rattle.shake256.specs.Fips.{SHAKE256};
ghost use Rattle.shake256.specs.Stream as stream;

use shake256::Sponge;

// One permutation of the lanes.
#[unsafe(no_mangle)]
pub extern "C" fn unlock_test_permute(lanes: &mut [u64; 25])
    ensures { lanes.new ≡ keccak_f lanes.old }
{
    *lanes = keccak::permute(*lanes);
}

// SHAKE256 in one call.
#[unsafe(no_mangle)]
pub extern "C" fn unlock_test_shake256(message: &[u8], output: &mut [u8])
    ensures { output.new ≡ SHAKE256 message.now (length output.old) }
{
    shake256::shake256(message, output);
}

// SHAKE256 of a message that is absorbed in pieces of the lengths `cuts`, the rest last, and squeezed in pieces of the
// lengths `spans`, the rest last.
#[unsafe(no_mangle)]
pub extern "C" fn unlock_test_pieces(message: &[u8], cuts: &[u16], output: &mut [u8], spans: &[u16])
    ensures { output.new ≡ SHAKE256 message.now (length output.old) }
{
    let s = absorb_pieces(Sponge::new(), message, cuts);
    squeeze_pieces(s.finish(), output, spans);
}

// The end of a piece of n bytes from i on, or the end of all.
fn end(i: usize, n: u16, all: usize) -> usize
    requires { i ≤ all }
    ensures { (i ≤ result) × (result ≤ all) }
{
    let n = usize::from(n);
    if all - i < n { all } else { i + n }
}

fn absorb_pieces(s: Sponge, message: &[u8], cuts: &[u16]) -> Sponge
    ensures { result ≡ stream.absorbed s message.now }
{
    let mut t = s;
    let mut i: usize = 0;
    for cut in cuts {
        let e = end(i, *cut, message.len());
        let next = t.absorb(&message[i..e]);
        t = next;
        i = e;
    }
    t.absorb(&message[i..])
}

fn squeeze_pieces(s: Sponge, output: &mut [u8], spans: &[u16])
    ensures { output.new ≡ stream.squeezed s (length output.old) }
{
    let mut t = s;
    let mut i: usize = 0;
    for span in spans {
        let e = end(i, *span, output.len());
        let next = t.squeeze(&mut output[i..e]);
        t = next;
        i = e;
    }
    t.squeeze(&mut output[i..]);
}
