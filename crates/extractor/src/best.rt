// What the runs so far give: of the second opening the lowest refused run's answer, and the first unequal pair of strings.
ghost use Rattle.std.specs.Prelude.{◌≡◌};
ghost use Rattle.extractor.specs.Best as spec;

use crate::findings::Difference;
use crate::run::Judgement;
use answers::Answer;

#[derive(Clone, Copy)]
pub struct Best {
    pub second: Answer,
    // the run, and the pair
    pub unequal: Option<(u8, Difference)>,
}

// Before the first run.
pub fn nothing_yet() -> Best
    ensures { result ≡ spec.nothing }
{
    Best {
        second: Ok(()),
        unequal: None,
    }
}

// One run more.
pub fn better(best: Best, run: u8, found: Judgement) -> Best
    ensures { result ≡ spec.better_of best run found }
{
    let unequal = found.difference.map(|difference| (run, difference));
    Best {
        second: best.second.and(found.second),
        unequal: best.unequal.or(unequal),
    }
}
