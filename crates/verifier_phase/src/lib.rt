// The phases of a verifier's session, and a phase as a byte. Any two of the bytes differ in at least four bits.
#![tactic(auto)]

ghost use Rattle.std.specs.Prelude.{◌≡◌};
ghost use Rattle.verifier_phase.specs.Phases.{verifier_phase_byte, verifier_phase_from};

// Which call is due. Begin is due always.
#[derive(Clone, Copy, Debug, PartialEq, Eq)]
pub enum Phase {
    // before the first begin
    Fresh,
    // message 1 is there: points is due
    Begun,
    // message 2 was sent: response is due
    Pointed,
    // message 3 is there: leaf is due
    Responded,
    // message 4 was sent: opening is due
    Chosen,
    // an opening was judged: only begin is due
    Closed,
}

// The phase that a byte stands for; a byte that stands for none reads as closed.
impl From<u8> for Phase {
    ghost from_gives = { λ b f. f ≡ verifier_phase_from b };

    fn from(b: u8) -> Phase
        ensures { result ≡ verifier_phase_from b }
    {
        match b {
            0x0f => Phase::Fresh,
            0x33 => Phase::Begun,
            0x3c => Phase::Pointed,
            0x55 => Phase::Responded,
            0x5a => Phase::Chosen,
            _ => Phase::Closed,
        }
    }
}

// The byte of a phase.
impl From<Phase> for u8 {
    ghost from_gives = { λ f b. b ≡ verifier_phase_byte f };

    fn from(f: Phase) -> u8
        ensures { result ≡ verifier_phase_byte f }
    {
        match f {
            Phase::Fresh => 0x0f,
            Phase::Begun => 0x33,
            Phase::Pointed => 0x3c,
            Phase::Responded => 0x55,
            Phase::Chosen => 0x5a,
            Phase::Closed => 0x66,
        }
    }
}
