// A key's text read from standard input in pieces, so that it may have any length. What standard input holds nobody can say; what is promised
// is that some text was read, and that scanner and slices hold what that text gives.
#![tactic(auto)]

ghost use Rattle.std.specs.Prelude.{◌≡◌, true, IfOk, OnErr, MatchOption};
ghost use Rattle.keytext.specs.declared.KeyScan.{KeyScan};
ghost use Rattle.keytext.specs.Scan.{held};
ghost use Rattle.keyinput.specs.Read.{Read, ReadSome};

use keytext::KeyScan;
use std::io;

// One piece more of the input, or None at its end. At the end, and where a read fails, the slices are as they were.
pub fn feed_some<R: io::Read>(
    input: &mut R,
    scan: KeyScan,
    matrix: &mut [u8],
    y: &mut [u8],
    x_a: &mut [u8],
) -> io::Result<Option<KeyScan>>
    ensures read { IfOk result (λ fed. MatchOption fed
        (held scan matrix.new y.new x_a.new ≡ held scan matrix.old y.old x_a.old)
        (λ next. ReadSome (held scan matrix.old y.old x_a.old) (held next matrix.new y.new x_a.new) true)) }
    ensures failed { OnErr result (held scan matrix.new y.new x_a.new ≡ held scan matrix.old y.old x_a.old) }
{
    let mut piece = [0u8; 4096];
    let n = input.read(&mut piece)?;
    if n == 0 {
        return Ok(None);
    }
    Ok(Some(scan.feed(&piece[..n], matrix, y, x_a)))
}

// The rest of the input, or 2^64 − 1 pieces of it. Where a read fails, the slices hold what the text before it gives.
pub fn feed_rest<R: io::Read>(
    input: &mut R,
    begun: KeyScan,
    matrix: &mut [u8],
    y: &mut [u8],
    x_a: &mut [u8],
) -> io::Result<KeyScan>
    ensures read { IfOk result (λ scan. Read (held begun matrix.old y.old x_a.old)
        (held scan matrix.new y.new x_a.new)) }
    ensures failed { OnErr result ((scan : KeyScan) × Read (held begun matrix.old y.old x_a.old)
        (held scan matrix.new y.new x_a.new)) }
{
    let mut scan = begun;
    for _ in 0..u64::MAX {
        let Some(next) = feed_some(input, scan, matrix, y, x_a)? else {
            return Ok(scan);
        };
        scan = next;
    }
    Ok(scan)
}
