// The C interface: functions on numbers and slices. A slice passes as its address and its length; a session lives in a buffer
// that the caller lends, the parameters are the numbers of a set. Arguments go in the order session, set, inputs, matrix, y, work
// area, output.
#![tactic(auto)]

mod extracting;
mod fresh;
mod keeping;
mod misfit;
mod proving;
mod sizes;
mod verifying;

ghost use Rattle.std.specs.Prelude.{◌≡◌, length};
ghost use Rattle.shake256.specs.Fips.{SHAKE256};

// SHAKE256 of the message: fills out.
#[unsafe(no_mangle)]
pub extern "C" fn unlock_shake256(message: &[u8], out: &mut [u8])
    ensures { out.new ≡ SHAKE256 message.now (length out.old) }
{
    shake256::shake256(message, out);
}
