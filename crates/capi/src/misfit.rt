// A session buffer of another length.
ghost use Rattle.std.specs.Prelude.{◌≡◌};
ghost use Rattle.capi.specs.Session.{misfit_number};

use parameters::Parameters;

// What begin answers for it: in document 01's order 1 stands before 2.
pub fn misfit_number(p: Parameters, runs: usize) -> u8
    ensures { result ≡ misfit_number p runs }
{
    if layout::runs::within(p, runs) { 2 } else { 1 }
}
