// One run of two exchanges: both openings checked, and where the hidden leaves differ what they gave is compared.
ghost use Rattle.std.specs.Prelude.{◌≡◌};
ghost use Rattle.exchange.specs.Values.{key_of};
ghost use Rattle.extractor.specs.Difference.{named};
ghost use Rattle.extractor.specs.Run as spec;

use crate::findings::{Difference, compare};
use crate::judge::judge;
use crate::opened::opened_at;
use crate::pairs::Pair;
use answers::{Answer, Refusal};
use layout::{MOST_OPENED, prefix_place};

// What a run gives whose first opening is accepted: the verdict on the second, and the first unequal pair of strings.
#[derive(Clone, Copy)]
pub struct Judgement {
    pub second: Answer,
    pub difference: Option<Difference>,
}

// The first unequal pair of strings of a run; none where the hidden leaves agree.
fn compare_run(
    pair: Pair,
    statement: &[u8],
    first5: &[u8],
    second5: &[u8],
    openings: &[u8],
) -> Option<Difference>
    requires { spec.Compared pair statement.now first5.now second5.now openings.now }
    ensures { named result ≡ spec.difference_in pair statement.now first5.now second5.now openings.now }
{
    let Pair { p, first, second } = pair;
    if first.leaf == second.leaf {
        return None;
    }
    let at = prefix_place(p);
    let one = opened_at(p, first, first5, &openings[..MOST_OPENED]);
    let two = opened_at(p, second, second5, &openings[MOST_OPENED..]);
    compare(p, &statement[at..], one, two)
}

// Checks both openings of a run against its statement, each in one half of `openings`, and compares them. Where the first is
// refused the rest is not looked at.
pub fn check_run(
    pair: Pair,
    statement: &[u8],
    first5: &[u8],
    second5: &[u8],
    matrix: &[u8],
    y: &[u8],
    work: &mut [u8],
    openings: &mut [u8],
) -> Result<Judgement, Refusal>
    requires { spec.RunAsked pair statement.now first5.now second5.now matrix.now y.now work.old openings.old }
    ensures { spec.RunChecked pair statement.now first5.now second5.now
        (key_of matrix.now y.now) work.old result work.new openings.new }
{
    let Pair { p, first, second } = pair;
    judge(
        p,
        statement,
        first.leaf,
        &first5[first.start..first.end],
        matrix,
        y,
        work,
        &mut openings[..MOST_OPENED],
    )?;
    let verdict = judge(
        p,
        statement,
        second.leaf,
        &second5[second.start..second.end],
        matrix,
        y,
        work,
        &mut openings[MOST_OPENED..],
    );
    let difference = compare_run(pair, statement, first5, second5, openings);
    Ok(Judgement {
        second: verdict,
        difference,
    })
}
