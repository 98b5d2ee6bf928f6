// The strings that are hashed (document 01, 'Strings hashed'), streamed into a sponge: their start, and the hash of the whole.
// No string is hashed but through these functions.
#![tactic(auto)]

ghost use Rattle.std.specs.Prelude.{◌≡◌, [], ◌++◌, length};
ghost use Rattle.shake256.specs.Stream.{absorbed};
ghost use Rattle.strings.specs.Digest as spec;

use shake256::Sponge;

// The sponge that has absorbed layer ‖ prefix, with which each string of the layer starts.
pub fn begin(layer: u8, prefix: &[u8]) -> Sponge
    ensures { result ≡ spec.begun layer prefix.now }
{
    let first = [layer];
    Sponge::new().absorb(&first).absorb(prefix)
}

// The sponge that has absorbed one piece more of a string that is made piece by piece.
pub fn absorb(s: Sponge, piece: &[u8]) -> Sponge
    ensures { result ≡ absorbed s piece.now }
{
    s.absorb(piece)
}

// Fills out with the hash of a string: what start has absorbed ‖ number ‖ body ‖ tail.
pub fn hash(start: Sponge, number: &[u8], body: &[u8], tail: &[u8], out: &mut [u8])
    ensures { out.new ≡ spec.hashed start (number.now ++ (body.now ++ tail.now)) (length out.old) }
{
    start
        .absorb(number)
        .absorb(body)
        .absorb(tail)
        .finish()
        .squeeze(out);
}

// Fills out with the hash of a string that was made piece by piece: what s has absorbed, and nothing more.
pub fn digest(s: Sponge, out: &mut [u8])
    ensures { out.new ≡ spec.hashed s [] (length out.old) }
{
    hash(s, &[], &[], &[], out);
}
