// The run count, which the program's first argument names.
ghost use Rattle.std.specs.Prelude.{◌≡◌};
ghost use Rattle.text.specs.Fold.{fold};
ghost use Rattle.text.specs.Scanner.Decimal.{decimal_start, decimal_step};
ghost use Rattle.unlock.specs.Count.{named, count_of, with_runs};

use answers::{Answer, Refusal, require};
use text::decimal::DecimalScan;

// The run count where there is no argument.
const DEFAULT_RUNS: usize = 17;

// A text of at most three digits, scanned.
fn scanned(text: &[u8]) -> DecimalScan
    ensures { result ≡ fold (decimal_step 3) decimal_start text.now }
{
    let mut scan = DecimalScan::new();
    for b in text {
        scan = scan.push(*b, 3);
    }
    scan
}

// The run count that a text names, within its limits or not, if it can be read.
fn named(text: &[u8]) -> Option<usize>
    ensures { result ≡ named text.now }
{
    let scan = scanned(text);
    if scan.accepts() {
        Some(scan.value)
    } else {
        None
    }
}

// The run count of a program that has so many arguments, its own name among them; text is the first behind the name.
pub fn count_of(arguments: usize, text: &[u8]) -> Option<usize>
    ensures { result ≡ count_of arguments text.now }
{
    match arguments {
        0..=1 => Some(DEFAULT_RUNS),
        2 => named(text),
        _ => None,
    }
}

// The answer of a key's checks 10, 1 and 2 with the check of the run count.
pub fn with_runs(checked: Answer, runs: usize) -> Answer
    ensures { result ≡ with_runs checked runs }
{
    if checked == Err(Refusal::Malformed) {
        return checked;
    }
    require(layout::runs::runs_within(runs), Refusal::Parameter).and(checked)
}
