// The phases of a prover's session, and a phase as a byte. Any two of the bytes differ in at least four bits.
#![tactic(auto)]

ghost use Rattle.std.specs.Prelude.{◌≡◌};
ghost use Rattle.prover_phase.specs.Phases.{is_fresh, prover_phase_byte, prover_phase_from};

// Which call is due. Begin is due always.
#[derive(Clone, Copy, Debug, PartialEq, Eq)]
pub enum Phase {
    // before the first begin
    Fresh,
    // message 1 was given: points is due
    Begun,
    // message 3 was given: leaf is due
    Answered,
    // message 5 was given: only begin is due
    Closed,
}

impl Phase {
    // Was begin never carried out?
    pub fn is_fresh(self) -> bool
        ensures { result ≡ is_fresh self }
    {
        matches!(self, Phase::Fresh)
    }
}

// The phase that a byte stands for; a byte that stands for none reads as closed.
impl From<u8> for Phase {
    ghost from_gives = { λ b f. f ≡ prover_phase_from b };

    fn from(b: u8) -> Phase
        ensures { result ≡ prover_phase_from b }
    {
        match b {
            0x0f => Phase::Fresh,
            0x33 => Phase::Begun,
            0x55 => Phase::Answered,
            _ => Phase::Closed,
        }
    }
}

// The byte of a phase.
impl From<Phase> for u8 {
    ghost from_gives = { λ f b. b ≡ prover_phase_byte f };

    fn from(f: Phase) -> u8
        ensures { result ≡ prover_phase_byte f }
    {
        match f {
            Phase::Fresh => 0x0f,
            Phase::Begun => 0x33,
            Phase::Answered => 0x55,
            Phase::Closed => 0x66,
        }
    }
}
