// The listing at its edges (document 01, Worked, and the kinds of 10, 1, 2 and 3): each input's listing, in order.
#![tactic(auto)]

use keytext::KeyScan;
use keytext::listing::LONGEST_LISTING;
use layout::{LONGEST_Y, MOST_MATRIX};
use std::io;

// The listing of an input.
fn show(rt: &impl Print, input: &[u8]) -> io::Result<()> {
    let mut out = [0; LONGEST_LISTING];
    let n = keytext::listing::listing(input, &mut out);
    rt.write_all(&out[..n])
}

// n bytes 00 in hex go to the scanner.
fn zeros(scan: KeyScan, n: usize, matrix: &mut [u8], y: &mut [u8], x_a: &mut [u8]) -> KeyScan {
    let mut now = scan;
    for _ in 0..n {
        now = now.feed(b"00", matrix, y, x_a);
    }
    now
}

// The listing of an input of five pieces: the first, n zeros, the second, k zeros, the third.
fn show_long(
    rt: &impl Print,
    first: &[u8],
    n: usize,
    second: &[u8],
    k: usize,
    third: &[u8],
) -> io::Result<()> {
    let mut matrix = [0; MOST_MATRIX];
    let mut y = [0; LONGEST_Y];
    let mut x_a = [0; LONGEST_Y];
    let mut out = [0; LONGEST_LISTING];
    let a = KeyScan::new().feed(first, &mut matrix, &mut y, &mut x_a);
    let b = zeros(a, n, &mut matrix, &mut y, &mut x_a);
    let c = b.feed(second, &mut matrix, &mut y, &mut x_a);
    let d = zeros(c, k, &mut matrix, &mut y, &mut x_a);
    let e = d.feed(third, &mut matrix, &mut y, &mut x_a);
    let len = keytext::listing::finish(e, &matrix, &y, &x_a, &mut out);
    rt.write_all(&out[..len])
}

// Document 01's sample, the same set with key 00 and syndrome 00, and with syndrome 02: refused 3.
fn sample(rt: &impl Print) -> io::Result<()> {
    show(
        rt,
        b"set\t2\t1\t1\t1\t1\nmatrix\t01\nsyndrome\t05\nkey\t05\n",
    )?;
    show(
        rt,
        b"set\t2\t1\t1\t1\t1\nmatrix\t01\nsyndrome\t00\nkey\t00\n",
    )?;
    show(
        rt,
        b"set\t2\t1\t1\t1\t1\nmatrix\t01\nsyndrome\t02\nkey\t05\n",
    )
}

// m 255 with k = m − 1 passes; m 256, k = m, D 9, t 9 and 0 give 1.
fn limits(rt: &impl Print) -> io::Result<()> {
    show_long(
        rt,
        b"set\t255\t254\t1\t1\t1\nmatrix\t",
        254,
        b"\nsyndrome\t00\nkey\t",
        254,
        b"\n",
    )?;
    show_long(
        rt,
        b"set\t256\t254\t1\t1\t1\nmatrix\t",
        254,
        b"\nsyndrome\t00\nkey\t",
        254,
        b"\n",
    )?;
    show(rt, b"set\t2\t2\t1\t1\t1\nmatrix\t\nsyndrome\t\nkey\t0505\n")?;
    show(
        rt,
        b"set\t2\t1\t1\t9\t1\nmatrix\t01\nsyndrome\t05\nkey\t05\n",
    )?;
    show(
        rt,
        b"set\t2\t1\t1\t1\t9\nmatrix\t01\nsyndrome\t05\nkey\t05\n",
    )?;
    show(
        rt,
        b"set\t2\t1\t0\t1\t1\nmatrix\t01\nsyndrome\t05\nkey\t05\n",
    )
}

// Well-formed hex of the wrong length is 2, an empty field and a million digits too; 1 comes before 2.
fn lengths(rt: &impl Print) -> io::Result<()> {
    show(
        rt,
        b"set\t2\t1\t1\t1\t1\nmatrix\t0101\nsyndrome\t05\nkey\t05\n",
    )?;
    show(rt, b"set\t2\t1\t1\t1\t1\nmatrix\t01\nsyndrome\t\nkey\t05\n")?;
    show(
        rt,
        b"set\t2\t1\t1\t1\t1\nmatrix\t01\nsyndrome\t05\nkey\t0505\n",
    )?;
    show_long(
        rt,
        b"set\t2\t1\t1\t1\t1\nmatrix\t",
        500_000,
        b"\nsyndrome\t05\nkey\t",
        1,
        b"\n",
    )?;
    show(
        rt,
        b"set\t2\t1\t3\t1\t1\nmatrix\t0101\nsyndrome\t05\nkey\t05\n",
    )
}

// 10 by words and field counts, also before 1 and 2.
fn words(rt: &impl Print) -> io::Result<()> {
    show(rt, b"")?;
    show(
        rt,
        b"sets\t2\t1\t1\t1\t1\nmatrix\t01\nsyndrome\t05\nkey\t05\n",
    )?;
    show(
        rt,
        b"set\t2\t1\t1\t1\t1\nsyndrome\t01\nmatrix\t05\nkey\t05\n",
    )?;
    show(rt, b"set\t2\t1\t1\t1\nmatrix\t01\nsyndrome\t05\nkey\t05\n")?;
    show(
        rt,
        b"set\t2\t1\t1\t1\t1\t1\nmatrix\t01\nsyndrome\t05\nkey\t05\n",
    )?;
    show(
        rt,
        b"set\t256\t1\t1\t1\t1\nmatrix\t01\nsyndrome\t05\nkey\t05\t\n",
    )
}

// 10 by digits and hex.
fn digits(rt: &impl Print) -> io::Result<()> {
    show(
        rt,
        b"set\t02\t1\t1\t1\t1\nmatrix\t01\nsyndrome\t05\nkey\t05\n",
    )?;
    show(
        rt,
        b"set\t1000\t1\t1\t1\t1\nmatrix\t01\nsyndrome\t05\nkey\t05\n",
    )?;
    show(
        rt,
        b"set\t\t1\t1\t1\t1\nmatrix\t01\nsyndrome\t05\nkey\t05\n",
    )?;
    show(
        rt,
        b"set\t2\t1\t1\t1\t1\nmatrix\t011\nsyndrome\t05\nkey\t05\n",
    )?;
    show(
        rt,
        b"set\t2\t1\t1\t1\t1\nmatrix\t0A\nsyndrome\t05\nkey\t05\n",
    )?;
    show_long(
        rt,
        b"set\t2\t1\t1\t1\t1\nmatrix\t",
        500_000,
        b"0g\nsyndrome\t05\nkey\t",
        1,
        b"\n",
    )
}

// 10 by lines: the last line feed missing, a fifth line, a carriage return, a line missing.
fn lines(rt: &impl Print) -> io::Result<()> {
    show(rt, b"set\t2\t1\t1\t1\t1\nmatrix\t01\nsyndrome\t05\nkey\t05")?;
    show(
        rt,
        b"set\t2\t1\t1\t1\t1\nmatrix\t01\nsyndrome\t05\nkey\t05\n\n",
    )?;
    show(
        rt,
        b"set\t2\t1\t1\t1\t1\r\nmatrix\t01\r\nsyndrome\t05\r\nkey\t05\r\n",
    )?;
    show(rt, b"set\t2\t1\t1\t1\t1\nmatrix\t01\nsyndrome\t05\n")
}

fn main(rt: HostRuntime) -> io::Result<()> {
    sample(&rt)?;
    limits(&rt)?;
    lengths(&rt)?;
    words(&rt)?;
    digits(&rt)?;
    lines(&rt)
}
