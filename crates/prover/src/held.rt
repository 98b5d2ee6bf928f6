// Which phase of a session counts.
ghost use Rattle.std.specs.Prelude.{◌≡◌};
ghost use Rattle.prover_phase.specs.Phases.{is_fresh};
ghost use Rattle.calls.specs.Prover as spec;
ghost use Rattle.prover.specs.Held.{held};

use crate::Prover;
use layout::runs::within;
use prover_phase::Phase;

impl Prover {
    // Was begin never carried out?
    pub fn is_fresh(&self) -> bool
        ensures { result ≡ is_fresh self.now.phase }
    {
        matches!(self.phase, Phase::Fresh)
    }

    // Are parameters and run count within their limits, and has x at most w nonzero entries, as after every begin?
    fn intact(&self) -> bool
        ensures { result ≡ spec.intact (held self.now) }
    {
        let p = self.parameters;
        within(p, self.runs) && key::within_weight(p.w, &self.x[..p.m])
    }

    // The phase that counts: a session that is not fresh and not intact, so one that no call made, counts as closed.
    pub fn standing(&self) -> Phase
        ensures { result ≡ spec.standing (held self.now) }
    {
        if self.is_fresh() || self.intact() {
            self.phase
        } else {
            Phase::Closed
        }
    }
}
