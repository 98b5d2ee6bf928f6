// An opening checked.
ghost use Rattle.exchange.specs.Values.{key_of};
ghost use Rattle.openings.specs.Statement.{exchange_in};
ghost use Rattle.extractor.specs.Judged.{Judging, Judged};

use answers::Answer;
use layout::{opened_length, work_length};
use openings::check_opening;
use parameters::Parameters;

// Checks an opening against its statement in the front of the work area, which ends as zeros; the front of
// `opened` then holds what it gives, and the rest stays.
pub fn judge(
    p: Parameters,
    statement: &[u8],
    leaf: usize,
    message5: &[u8],
    matrix: &[u8],
    y: &[u8],
    work: &mut [u8],
    opened: &mut [u8],
) -> Answer
    requires { Judging p statement.now leaf message5.now matrix.now y.now work.old opened.old }
    ensures { Judged p (exchange_in p statement.now leaf message5.now)
        (key_of matrix.now y.now) work.old opened.old result work.new opened.new }
{
    let area = work_length(p);
    let all = opened_length(p);
    check_opening(
        p,
        statement,
        leaf,
        message5,
        matrix,
        y,
        &mut work[..area],
        &mut opened[..all],
    )
}
