// Whether a range ends inside something of a given size.
ghost use Rattle.std.specs.Prelude.{◌≡◌, ◌+◌, leb};

// No sum is formed, so none can wrap.
pub fn ends_inside(at: usize, len: usize, size: usize) -> bool
    ensures { result ≡ leb (at + len) size }
{
    len <= size && at <= size - len
}
