// A whole exchange of prover and verifier (document 01, Sessions; document 02, request 01) on the key that standard input holds, or on the
// default key where it is empty, with as many runs as the argument says. Of each message it prints name, length and digest, then the verdict.
#![tactic(auto)]

mod count;
mod default_key;
mod report;

ghost use Rattle.std.specs.Prelude.{◌≤◌, ◌<◌, length};
ghost use Rattle.parameters.specs.Limits.{Within};
ghost use Rattle.layout.specs.Maxima.{most_runs};

use answers::{Answer, Refusal};
use keytext::KeyScan;
use layout::runs::{message1_length, messages2_length, messages3_length, messages5_length};
use layout::{
    LONGEST_MESSAGE5, LONGEST_Y, MOST_MATRIX, MOST_MESSAGE1, MOST_MESSAGES2, MOST_MESSAGES3,
    MOST_RUNS, MOST_WORK,
};
use parameters::Parameters;
use parameters::set::parameters_of;
use prover::Prover;
use std::env::FillError;
use std::io;
use std::rt::Env;

// Message 5 of 32 runs, at its longest.
const MOST_MESSAGES5: usize = MOST_RUNS * LONGEST_MESSAGE5;

// The lines of the parameters and of the run count.
fn show_set(rt: &impl Print, p: Parameters, runs: usize) -> io::Result<()>
    requires { Within p × (runs ≤ most_runs) }
{
    let mut line = [0u8; 96];
    let n = crate::report::set_line(&mut line, p);
    rt.write_all(&line[..n])?;
    let mut next = [0u8; 96];
    let k = crate::report::runs_line(&mut next, runs);
    rt.write_all(&next[..k])
}

// The line of a message.
fn show(rt: &impl Print, name: &[u8], message: &[u8]) -> io::Result<()>
    requires { (length name.now ≤ 16) × (length message.now < 1_000_000) }
{
    let mut line = [0u8; 96];
    let n = crate::report::message_line(&mut line, name, message);
    rt.write_all(&line[..n])
}

// The line of the chance.
fn show_chance(rt: &impl Print, p: Parameters, runs: usize) -> io::Result<()>
    requires { Within p × (runs ≤ most_runs) }
{
    let mut line = [0u8; 96];
    let n = crate::report::chance_line(&mut line, p, runs);
    rt.write_all(&line[..n])
}

// The verdict, what it is worth where the opening was accepted, and what is proved of it.
fn show_verdict(rt: &impl Print, a: Answer, p: Parameters, runs: usize) -> io::Result<()>
    requires { Within p × (runs ≤ most_runs) }
{
    let mut line = [0u8; 96];
    let n = crate::report::verdict_line(&mut line, a);
    rt.write_all(&line[..n])?;
    if a.is_ok() {
        show_chance(rt, p, runs)?;
    }
    rt.write_all(
        b"proved\tthe messages are document 01's and 02's byte for byte; accepted exactly when the checks of every run hold (docs/CLAIMS.md)\n",
    )
}

// The only line for a key or a run count that is refused.
fn show_refused(rt: &impl Print, r: Refusal) -> io::Result<()> {
    let mut line = [0u8; 96];
    let n = keytext::listing::refused(&mut line, r);
    rt.write_all(&line[..n])
}

// Why an exchange ends early: a call was refused, or a line could not be written.
#[derive(Drop)]
enum Ended {
    Refused(Refusal),
    Unwritten(io::Error),
}

impl From<Refusal> for Ended {
    fn from(r: Refusal) -> Self {
        Ended::Refused(r)
    }
}

impl From<io::Error> for Ended {
    fn from(e: io::Error) -> Self {
        Ended::Unwritten(e)
    }
}

// The exchange from message 1 on, up to the verifier's verdict. Each message is shown as it goes out.
fn messages(
    rt: &impl Print,
    prover: &mut Prover,
    p: Parameters,
    runs: usize,
    message1: &[u8],
    matrix: &[u8],
    y: &[u8],
    work: &mut [u8],
) -> Result<(), Ended>
    requires { Within p × (runs ≤ most_runs) × (length message1.now < 1_000_000) }
{
    show(rt, b"1 commitment", message1)?;
    let mut verifier = verifier::fresh();
    verifier.start(p, runs, message1)?;
    let mut message2 = [0; MOST_MESSAGES2];
    let message2 = &mut message2[..messages2_length(p, runs)];
    crate::default_key::points(message2);
    verifier.take_points(message2)?;
    show(rt, b"2 points", message2)?;
    let mut message3 = [0; MOST_MESSAGES3];
    let message3 = &mut message3[..messages3_length(runs)];
    prover.take_points(message2, matrix, y, work, message3)?;
    show(rt, b"3 response", message3)?;
    verifier.take_response(message3)?;
    let mut leaves = [0; MOST_RUNS];
    let leaves = &mut leaves[..runs];
    crate::default_key::leaves(p, leaves);
    verifier.take_leaf(leaves)?;
    show(rt, b"4 leaf", leaves)?;
    let mut message5 = [0; MOST_MESSAGES5];
    let message5 = &mut message5[..messages5_length(p, leaves)];
    prover.take_leaf(leaves, matrix, y, work, message5)?;
    show(rt, b"5 opening", message5)?;
    verifier.take_opening(message5, matrix, y, work)?;
    Ok(())
}

// The whole exchange.
fn exchange(
    rt: &impl Print,
    p: Parameters,
    runs: usize,
    matrix: &[u8],
    y: &[u8],
    x_a: &[u8],
) -> io::Result<()>
    requires { Within p × (runs ≤ most_runs) }
{
    let salt = crate::default_key::salt();
    let root = crate::default_key::root();
    let mut work = [0; MOST_WORK];
    let mut message1 = [0; MOST_MESSAGE1];
    let message1 = &mut message1[..message1_length(runs)];
    let mut prover = prover::fresh();
    let begun = prover.start(p, runs, x_a, &salt, &root, matrix, y, &mut work, message1);
    if let Err(r) = begun {
        return show_refused(rt, r);
    }
    show_set(rt, p, runs)?;
    let verdict = match messages(rt, &mut prover, p, runs, message1, matrix, y, &mut work) {
        Ok(()) => Ok(()),
        Err(Ended::Refused(r)) => Err(r),
        Err(Ended::Unwritten(e)) => return Err(e),
    };
    show_verdict(rt, verdict, p, runs)
}

// The exchange on the default key.
fn on_default_key(rt: &impl Print, runs: usize) -> io::Result<()> {
    if let Err(r) = crate::count::with_runs(Ok(()), runs) {
        return show_refused(rt, r);
    }
    let p = crate::default_key::shipped_set();
    let mut matrix = [0u8; 13104];
    crate::default_key::matrix(&mut matrix);
    let y = crate::default_key::syndrome();
    let x_a = crate::default_key::x_a();
    exchange(rt, p, runs, &matrix, &y, &x_a)
}

// The exchange on a key that was read.
fn on_key_read(
    rt: &impl Print,
    runs: usize,
    scan: KeyScan,
    matrix: &[u8],
    y: &[u8],
    x_a: &[u8],
) -> io::Result<()> {
    let read = keytext::listing::read_checks(scan, matrix.len(), y.len(), x_a.len());
    if let Err(r) = crate::count::with_runs(read, runs) {
        return show_refused(rt, r);
    }
    let p = parameters_of(&scan.numbers);
    let size = layout::matrix_length(p);
    let rows = layout::y_length(p);
    exchange(rt, p, runs, &matrix[..size], &y[..rows], &x_a[..p.k])
}

// The exchange on the key that the input holds.
fn on_input<R: io::Read>(rt: &impl Print, input: &mut R, runs: usize) -> io::Result<()> {
    let mut matrix = [0; MOST_MATRIX];
    let mut y = [0; LONGEST_Y];
    let mut x_a = [0; LONGEST_Y];
    let fed = keyinput::feed_some(input, KeyScan::new(), &mut matrix, &mut y, &mut x_a)?;
    let Some(begun) = fed else {
        return on_default_key(rt, runs);
    };
    let scan = keyinput::feed_rest(input, begun, &mut matrix, &mut y, &mut x_a)?;
    on_key_read(rt, runs, scan, &matrix, &y, &x_a)
}

// How many arguments there are, the program's name among them, up to 3.
fn arg_count(rt: &impl Env) -> usize {
    let mut text = [0u8; 1];
    for i in 0..3 {
        if let Err(FillError::NotPresent) = rt.arg(i, &mut text) {
            return i;
        }
    }
    3
}

// The run count that the arguments name. An argument that is too long counts as an empty one, which is no decimal either.
fn run_count(rt: &impl Env) -> Option<usize> {
    let mut text = [0u8; 4];
    let n = rt.arg(1, &mut text).unwrap_or(0);
    crate::count::count_of(arg_count(rt), &text[..n])
}

fn main(rt: HostRuntime) -> io::Result<()> {
    match run_count(&rt) {
        Some(runs) => on_input(&rt, &mut rt.stdin(), runs),
        None => show_refused(&rt, Refusal::Malformed),
    }
}
