// What the opening of a run is held to, in one slice: h, h', message 2, then the prefix.
ghost use Rattle.std.specs.Prelude.{◌≡◌};
ghost use Rattle.openings.specs.Statement as spec;

use layout::{message2_length, prefix_place};
use lists::put_at;
use parameters::Parameters;

// Fills out with the statement of a run, from messages 1 to 3 of its exchange.
pub fn put_statement(
    p: Parameters,
    run: u8,
    message1: &[u8],
    message2: &[u8],
    message3: &[u8],
    out: &mut [u8],
)
    requires { spec.StatementAsked p run message1.now message2.now message3.now out.old }
    ensures { out.new ≡ spec.statement_at p run message1.now message2.now message3.now }
{
    let e = usize::from(run);
    let size = message2_length(p);
    let at = prefix_place(p);
    let h = 32 + e * 32;
    let points = e * size;
    let response = e * 32;
    let byte = [run];
    put_at(out, 0, &message1[h..h + 32]);
    put_at(out, 32, &message3[response..response + 32]);
    put_at(out, 64, &message2[points..points + size]);
    put_at(out, at, &message1[..32]);
    put_at(out, at + 32, &byte);
}
