// Points in slices of bytes, four bytes each.
ghost use Rattle.std.specs.Prelude.{◌≡◌, ◌+◌, ◌≤◌, length};
ghost use Rattle.lists.specs.Part.{put_at};
ghost use Rattle.tower.specs.Field.{bytes_of};
ghost use Rattle.exchange.specs.Reading.{point_at};

// The point whose four bytes stand in s from place at on.
pub fn point_at(s: &[u8], at: usize) -> [u8; 4]
    requires { at + 4 ≤ length s.now }
    ensures { result ≡ bytes_of (point_at s.now at) }
{
    [s[at], s[at + 1], s[at + 2], s[at + 3]]
}

// The four bytes of the point x are written to out from place at on.
pub fn put_point(out: &mut [u8], at: usize, x: [u8; 4])
    requires { at + 4 ≤ length out.old }
    ensures { out.new ≡ put_at out.old at x }
{
    lists::put_at(out, at, &x);
}
