// An opening checked, for verifier and extractor alike (document 01, 'Parties' and 'Messages'). All of it is recomputed
// before anything is compared, so that `opened` holds what the opening gives whatever the answer is.
#![tactic(auto)]

mod commitment;
mod response;
pub mod statement;

ghost use Rattle.std.specs.Prelude.{◌≡◌};
ghost use Rattle.exchange.specs.Values.{key_of};
ghost use Rattle.openings.specs.Statement.{exchange_in};
ghost use Rattle.openings.specs.From.{judged};
ghost use Rattle.openings.specs.Asked.{OpeningAsked, VerdictAsked};
ghost use Rattle.openings.specs.Checked.{Checked};

use crate::commitment::{commitment_agrees, open_leaves};
use crate::response::{open_axes, response_agrees};
use answers::{Answer, Refusal, require};
use layout::{MOST_VALUES, prefix_place, rows_end, values_length};
use parameters::Parameters;
use reader::opening::read_opening;

// The answer: 5 where the recomputed h differs from the statement's, 7 where the recomputed h' does.
fn verdict_of(
    p: Parameters,
    statement: &[u8],
    hidden_leaf: usize,
    aux: &[u8],
    opened: &[u8],
) -> Answer
    requires { VerdictAsked p statement.now opened.now }
    ensures { result ≡ judged p statement.now hidden_leaf aux.now opened.now }
{
    require(
        commitment_agrees(p, statement, hidden_leaf, aux, opened),
        Refusal::Commitment,
    )?;
    require(response_agrees(p, statement, opened), Refusal::Response)
}

// Checks the opening of an exchange against its statement. Whatever the answer, `opened` then holds the states of all leaves
// but the hidden one, whose place is zeros, what the parties of every axis announce and the hidden leaf's commitment, and the
// work area is zeros.
pub fn check_opening(
    p: Parameters,
    statement: &[u8],
    leaf: usize,
    message5: &[u8],
    matrix: &[u8],
    y: &[u8],
    work: &mut [u8],
    opened: &mut [u8],
) -> Answer
    requires { OpeningAsked p statement.now leaf message5.now matrix.now y.now work.old opened.old }
    ensures { Checked p (exchange_in p statement.now leaf message5.now)
        (key_of matrix.now y.now) result work.new opened.new }
{
    let mut values = [0u8; MOST_VALUES];
    let at = rows_end(p);
    let rest = read_opening(p, message5, work, &mut opened[at..], &mut values);
    let size = values_length(p);
    let place = prefix_place(p);
    let aux = message5.len() - rest;
    open_leaves(p, &statement[place..], leaf, &message5[aux..], work, opened);
    open_axes(p, statement, leaf, &values[..size], matrix, y, work, opened);
    verdict_of(p, statement, leaf, &message5[aux..], opened)
}
