// A prover's session of two runs at the shipped set, through right and wrong calls. Of each call it prints the name, document 01's number of the answer
// and SHAKE256 of the output after the call. Keys, seeds and messages are SHAKE256 of a label; the work area comes as bytes a5, the output as
// bytes 5a.
#![tactic(auto)]

ghost use Rattle.std.specs.Prelude.{◌^◌, ◌<◌, ◌≤◌, length};

use answers::Answer;
use bytefield::FieldTables;
use parameters::Parameters;
use parameters::set::parameters_of;
use prover::Prover;
use shake256::shake256;
use std::io;

// A call's line.
fn show(rt: &impl Print, name: &[u8], answer: Answer, out: &[u8]) -> io::Result<()> {
    let mut digest = [0u8; 32];
    let mut digits = [0u8; 64];
    shake256(out, &mut digest);
    text::print::put_hex(&mut digits, 0, &digest);
    rt.write_all(name)?;
    rt.write_all(b"\t")?;
    rt.print(u64::from(answers::answer_number(answer)))?;
    rt.write_all(b"\t")?;
    rt.write_all(&digits)?;
    rt.write_all(b"\n")
}

// The shipped set, of length m.
fn set_of(m: usize) -> Parameters {
    parameters_of(&[m, 126, 79, 8, 3])
}

// A part of the key: the first n bytes from a label, then zeros.
fn key_part<const N: usize>(label: &[u8], n: usize) -> [u8; N]
    requires { (n ≤ N) × (N < 2 ^ 63) }
{
    let mut part = [0u8; N];
    shake256(label, &mut part[..n]);
    part
}

// The key's y, which is H'x_A + x_B.
fn syndrome(x_a: &[u8; 126], matrix: &[u8; 13104]) -> [u8; 104] {
    let tables = FieldTables::new();
    let mut y: [u8; 104] = key_part(b"x_B", 39);
    let mut image = [0u8; 104];
    key::image(x_a, matrix, &mut image, &tables);
    lists::xor_into(&mut y, &image);
    y
}

// The call begin of this many runs with the salt, and with the root seed of a label.
fn begin_runs(
    rt: &impl Print,
    s: Prover,
    p: Parameters,
    runs: usize,
    x_a: &[u8],
    seed: &[u8],
    matrix: &[u8],
    y: &[u8],
) -> io::Result<Prover> {
    let mut salt = [0u8; 32];
    let mut root = [0u8; 16];
    let mut work = [0xa5u8; 5120];
    let mut out = [0x5au8; 96];
    shake256(b"salt", &mut salt);
    shake256(seed, &mut root);
    let (next, answer) = s.begin(p, runs, x_a, &salt, &root, matrix, y, &mut work, &mut out);
    show(rt, b"begin", answer, &out)?;
    Ok(next)
}

// The call begin of two runs.
fn begin(
    rt: &impl Print,
    s: Prover,
    p: Parameters,
    x_a: &[u8],
    seed: &[u8],
    matrix: &[u8],
    y: &[u8],
) -> io::Result<Prover> {
    begin_runs(rt, s, p, 2, x_a, seed, matrix, y)
}

// The call points with a message 2.
fn points_with(
    rt: &impl Print,
    s: Prover,
    message2: &[u8],
    matrix: &[u8],
    y: &[u8],
) -> io::Result<Prover> {
    let mut work = [0xa5u8; 5120];
    let mut out = [0x5au8; 64];
    let (next, answer) = s.points(message2, matrix, y, &mut work, &mut out);
    show(rt, b"points", answer, &out)?;
    Ok(next)
}

// The call points with the first N bytes of message 2, which has 48.
fn points<const N: usize>(rt: &impl Print, s: Prover, matrix: &[u8], y: &[u8]) -> io::Result<Prover>
    requires { N < 2 ^ 63 }
{
    let mut message2 = [0u8; N];
    shake256(b"points", &mut message2);
    points_with(rt, s, &message2, matrix, y)
}

// The call points with zeros, so with equal points in each run.
fn points_equal(rt: &impl Print, s: Prover, matrix: &[u8], y: &[u8]) -> io::Result<Prover> {
    let message2 = [0u8; 48];
    points_with(rt, s, &message2, matrix, y)
}

// The call leaf with an output.
fn leaf_with(
    rt: &impl Print,
    s: Prover,
    leaves: &[u8],
    matrix: &[u8],
    y: &[u8],
    out: &mut [u8],
) -> io::Result<Prover> {
    let mut work = [0xa5u8; 5120];
    let (next, answer) = s.leaf(leaves, matrix, y, &mut work, out);
    show(rt, b"leaf", answer, out)?;
    Ok(next)
}

// The call leaf with an output of N bytes: message 5 has 664 where leaves 77 and 255 are hidden, and 368 where leaf 255 is hidden twice.
fn leaf<const N: usize>(
    rt: &impl Print,
    s: Prover,
    leaves: &[u8],
    matrix: &[u8],
    y: &[u8],
) -> io::Result<Prover>
    requires { N < 2 ^ 63 }
{
    let mut out = [0x5au8; N];
    leaf_with(rt, s, leaves, matrix, y, &mut out)
}

// Calls that a fresh session refuses: points, which is not due; m and the run count out of their limits; y one byte short; x of too
// many nonzero entries.
fn refusals(rt: &impl Print, s: Prover, x_a: &[u8], matrix: &[u8], y: &[u8]) -> io::Result<Prover>
    requires { 103 ≤ length y.now }
{
    let heavy = [0xffu8; 126];
    let a = points::<48>(rt, s, matrix, y)?;
    let b = begin(rt, a, set_of(256), x_a, b"root", matrix, y)?;
    let c = begin_runs(rt, b, set_of(230), 33, x_a, b"root", matrix, y)?;
    let d = begin(rt, c, set_of(230), x_a, b"root", matrix, &y[..103])?;
    begin(rt, d, set_of(230), &heavy, b"root", matrix, y)
}

// A first exchange, with calls that are not due, of wrong lengths, with equal points, and after its end.
fn first(rt: &impl Print, s: Prover, x_a: &[u8], matrix: &[u8], y: &[u8]) -> io::Result<Prover> {
    let a = begin(rt, s, set_of(230), x_a, b"root", matrix, y)?;
    let b = leaf::<664>(rt, a, &[77, 255], matrix, y)?;
    let c = points::<47>(rt, b, matrix, y)?;
    let d = points_equal(rt, c, matrix, y)?;
    let e = points::<48>(rt, d, matrix, y)?;
    let f = points::<48>(rt, e, matrix, y)?;
    let g = leaf::<368>(rt, f, &[77, 255], matrix, y)?;
    let h = leaf::<664>(rt, g, &[77], matrix, y)?;
    let i = leaf::<664>(rt, h, &[77, 255], matrix, y)?;
    let j = leaf::<664>(rt, i, &[77, 255], matrix, y)?;
    points::<48>(rt, j, matrix, y)
}

// A second exchange: refused with the first one's salt and root, carried out with another root.
fn second(rt: &impl Print, s: Prover, x_a: &[u8], matrix: &[u8], y: &[u8]) -> io::Result<Prover> {
    let a = begin(rt, s, set_of(230), x_a, b"root", matrix, y)?;
    let b = begin(rt, a, set_of(230), x_a, b"other root", matrix, y)?;
    let c = points::<48>(rt, b, matrix, y)?;
    leaf::<368>(rt, c, &[255, 255], matrix, y)
}

// All calls, on one session.
fn run(rt: &impl Print, x_a: &[u8; 126], matrix: &[u8; 13104], y: &[u8; 104]) -> io::Result<()> {
    let a = refusals(rt, prover::fresh(), x_a, matrix, y)?;
    let b = first(rt, a, x_a, matrix, y)?;
    second(rt, b, x_a, matrix, y)?;
    Ok(())
}

fn main(rt: HostRuntime) -> io::Result<()> {
    let mut matrix = [0u8; 13104];
    shake256(b"matrix", &mut matrix);
    let x_a: [u8; 126] = key_part(b"x_A", 40);
    let y = syndrome(&x_a, &matrix);
    run(&rt, &x_a, &matrix, &y)
}
