// The verdict on an opening: run after run, as far as one is refused.
ghost use Rattle.std.specs.Prelude.{◌≡◌, length, replicate};
ghost use Rattle.lists.specs.Zeroed.{zeroed};
ghost use Rattle.shake256.specs.Fips.{SHAKE256};
ghost use Rattle.layout.specs.Layout.{work_length};
ghost use Rattle.exchange.specs.Opening.{verdict as runVerdict};
ghost use Rattle.exchange.specs.Values.{key_of};
ghost use Rattle.runs.specs.Opening.{verdict};
ghost use Rattle.verifier.specs.Judging.{RunAsked, RunsAsked, run_in, transcript_in};

use crate::{HELD, MESSAGE2_PLACE, MESSAGE3_PLACE};
use answers::Answer;
use layout::{
    MOST_OPENED, MOST_STATEMENT, message5_length, opened_length, statement_length, work_length,
};
use openings::check_opening;
use openings::statement::put_statement;
use parameters::Parameters;

// Checks the opening of a run, from the messages 1 to 3 that the session holds, its hidden leaf and its part of message 5; the work
// area ends as zeros.
fn judge_run(
    p: Parameters,
    run: usize,
    messages: &[u8],
    leaf: usize,
    message5: &[u8],
    matrix: &[u8],
    y: &[u8],
    work: &mut [u8],
) -> Answer
    requires { RunAsked p run messages.now leaf message5.now matrix.now y.now work.old }
    ensures value { result ≡ runVerdict SHAKE256 p (run_in p run messages.now leaf message5.now)
        (key_of matrix.now y.now) }
    ensures work_after { work.new ≡ replicate (work_length p) 0 }
{
    let mut statement = [0u8; MOST_STATEMENT];
    let mut opened = [0u8; MOST_OPENED];
    let stated = statement_length(p);
    let given = opened_length(p);
    put_statement(
        p,
        run as u8,
        &messages[..MESSAGE2_PLACE],
        &messages[MESSAGE2_PLACE..MESSAGE3_PLACE],
        &messages[MESSAGE3_PLACE..HELD],
        &mut statement[..stated],
    );
    check_opening(
        p,
        &statement[..stated],
        leaf,
        message5,
        matrix,
        y,
        work,
        &mut opened[..given],
    )
}

// Checks the openings of all runs of the exchange held; the first refused one answers, and those behind it are not looked at. The
// named length of the work area ends as zeros.
pub fn judge(
    p: Parameters,
    messages: &[u8],
    leaves: &[u8],
    message5: &[u8],
    matrix: &[u8],
    y: &[u8],
    work: &mut [u8],
) -> Answer
    requires { RunsAsked p messages.now leaves.now message5.now matrix.now y.now work.old }
    ensures value { result ≡ verdict SHAKE256 p (length leaves.now) (transcript_in messages.now leaves.now
        message5.now) (key_of matrix.now y.now) }
    ensures work_after { work.new ≡ zeroed (work_length p) work.old }
{
    let area = work_length(p);
    let mut place = 0;
    for (e, leaf) in leaves.iter().enumerate() {
        let leaf = usize::from(*leaf);
        let end = place + message5_length(p, leaf);
        judge_run(
            p,
            e,
            messages,
            leaf,
            &message5[place..end],
            matrix,
            y,
            &mut work[..area],
        )?;
        place = end;
    }
    Ok(())
}
