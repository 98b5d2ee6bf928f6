// The axis of the answer.
ghost use Rattle.std.specs.Prelude.{◌≡◌, ◌+◌};
ghost use Rattle.std.specs.Int.Bits.{bit_xor};
ghost use Rattle.std.specs.Int.Count.{count_trailing_zeros};

// The lowest set bit of the xor of two leaf numbers, counted from 1.
pub fn first_axis(first: u8, second: u8) -> u8
    ensures { result ≡ count_trailing_zeros 8 (bit_xor first second) + 1 }
{
    let apart = first ^ second;
    u8::trailing_zeros(apart) as u8 + 1
}
