// A message as a slice and a place in it.
ghost use Rattle.std.specs.Prelude.{◌≡◌, ◌≤◌, length};
ghost use Rattle.reader.specs.Taken.{taken, behind};

use lists::put_at;

// The front of out becomes the bytes of the message from `at` on, as many as out has room for and the message has; the
// answer is the place behind them.
pub fn copy_part(message: &[u8], at: usize, out: &mut [u8]) -> usize
    requires { at ≤ length message.now }
    ensures { (result ≡ behind message.now at out.old) × (out.new ≡ taken message.now at out.old) }
{
    let end = at + (message.len() - at).min(out.len());
    put_at(out, 0, &message[at..end]);
    end
}
