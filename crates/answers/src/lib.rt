// What a call answers, with document 01's numbers ('Numbers caused by the input', 'Numbers caused by the state').
#![tactic(auto)]

ghost use Rattle.std.specs.Prelude.{◌≡◌, Ok};
ghost use Rattle.answers.specs.Number.{refusal_number, answer_number};
ghost use Rattle.answers.specs.Checks.{check};

// Why a call is refused.
#[derive(Clone, Copy, Debug, PartialEq, Eq)]
pub enum Refusal {
    // 1: a parameter outside its limits
    Parameter,
    // 2: a lent slice of wrong length
    Length,
    // 3: x has more than w nonzero entries
    Weight,
    // 4: leaf number not below n
    Leaf,
    // 5: the recomputed h differs
    Commitment,
    // 6 is unused: the sums of α, β and v agree on all axes of every opening
    // 7: the recomputed h' differs
    Response,
    // 8, extractor: salt, h, points, multipliers or h' differ
    Exchange,
    // 9, extractor: same hidden leaf
    SameLeaf,
    // 10, program: wrong word, field count, digits or hex, or a line missing or left over
    Malformed,
    // 11: the call is not due
    NotDue,
    // 12: the exchange is closed, only begin is due
    Closed,
    // 13: salt and root both equal those of the exchange held
    Repeated,
    // 14: two points of one run are equal (document 02, request 02)
    SamePoint,
}

// What a session call answers. `Ok`: it was carried out, and where it judges an opening, the opening is accepted.
pub type Answer = Result<(), Refusal>;

// Document 01's number of a refusal.
impl From<Refusal> for u8 {
    ghost from_gives = { λ r n. n ≡ refusal_number r };

    fn from(r: Refusal) -> u8
        ensures { result ≡ refusal_number r }
    {
        match r {
            Refusal::Parameter => 1,
            Refusal::Length => 2,
            Refusal::Weight => 3,
            Refusal::Leaf => 4,
            Refusal::Commitment => 5,
            Refusal::Response => 7,
            Refusal::Exchange => 8,
            Refusal::SameLeaf => 9,
            Refusal::Malformed => 10,
            Refusal::NotDue => 11,
            Refusal::Closed => 12,
            Refusal::Repeated => 13,
            Refusal::SamePoint => 14,
        }
    }
}

// Document 01's number of an answer, 0 where the call was carried out.
pub fn answer_number(a: Answer) -> u8
    ensures { result ≡ answer_number a }
{
    match a {
        Ok(()) => 0,
        Err(r) => u8::from(r),
    }
}

// One check of a call: `otherwise` is the refusal where it does not hold.
pub fn require(holds: bool, otherwise: Refusal) -> Answer
    ensures { result ≡ check holds otherwise (Ok tt) }
{
    if holds { Ok(()) } else { Err(otherwise) }
}
