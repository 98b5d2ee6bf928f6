// A verifier's session in a buffer that the caller lends: which numbers of an opening write it anew.
ghost use Rattle.std.specs.Prelude.{◌≡◌};
ghost use Rattle.calls.specs.Judging.{judged};

// Does an opening with this number close the exchange?
pub fn is_judged(n: u8) -> bool
    ensures { result ≡ judged n }
{
    matches!(n, 0 | 5 | 7)
}
