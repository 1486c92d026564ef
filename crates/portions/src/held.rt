// The bytes of a portion that no call has read yet.
ghost use Rattle.std.specs.Prelude.{◌≡◌, length};
ghost use Rattle.octets.specs.Octets.{over};
ghost use Rattle.session.specs.Sessions.{part_of};

// Moves the bytes from `from` on and before `to` to the front of `buf`; gives how many there are.
pub fn shift(buf: &mut [u8], from: usize, to: usize) -> usize
    ensures { (result ≡ length (part_of from to buf.old))
        × (buf.new ≡ over (part_of from to buf.old) buf.old) }
{
    let end = to.min(buf.len());
    for j in from..end {
        buf[j - from] = buf[j];
    }
    end.saturating_sub(from)
}
