// What a program that reads in portions does with the bytes that it holds: those from p on and before n of `buf`.
ghost use Rattle.std.specs.Prelude.{◌≡◌, ◌-◌, ◌≤◌, length};
ghost use Rattle.lines.specs.Text.{written};
ghost use Rattle.octets.specs.Octets.{over};
ghost use Rattle.session.specs.Sessions.{part_of, lines_in, ran_of, last_in};
ghost use Rattle.session.specs.Words.{session_in, Runs};
ghost use Rattle.portions.specs.Feed.{is_over};

use base::types::Refusal;
use rows::places::ROWS;
use select::types::PATH_MAX_PER_PEER;
use session::types::*;

// A call on the bytes held. What it wrote stands in `out`, and what it read in the bytes held.
pub fn call(
    t: &mut [u64; 4],
    rec: &mut [[[u64; 4]; ROWS]; PATH_MAX_PER_PEER],
    mark: Mark,
    buf: &[u8],
    p: usize,
    n: usize,
    out: &mut [u8],
) -> Call
    ensures runs { Runs t.old t.new rec.old rec.new result
        out.old out.new
        (ran_of (lines_in out.old) (session_in t.old rec.old mark)
        (part_of p n buf.now)) }
    ensures wrote_in_bounds { (result.wrote ≤ length out.new) × (result.place ≤ n - p) }
{
    let to = n.min(buf.len());
    let from = p.min(to);
    crate::calls::step(t, rec, mark, &buf[from..to], out)
}

// The end of the input, with these bytes held; gives the bytes of the last line, which stand in `out`.
pub fn finish(mark: Mark, buf: &[u8], p: usize, n: usize, out: &mut [u8]) -> usize
    ensures value { (result ≡ written
        (last_in mark.phase mark.number (part_of p n buf.now)) out.old)
        × (out.new ≡ over
        (last_in mark.phase mark.number (part_of p n buf.now)) out.old) }
    ensures upper_bound { result ≤ length out.new }
{
    let to = n.min(buf.len());
    let from = p.min(to);
    crate::calls::finish(mark, &buf[from..to], out)
}

// Moves the bytes held to the front; gives how many there are, which is no more than `buf` has.
pub fn shift(buf: &mut [u8], p: usize, n: usize) -> usize
    ensures value { (result ≡ length (part_of p n buf.old))
        × (buf.new ≡ over (part_of p n buf.old) buf.old) }
    ensures upper_bound { result ≤ length buf.new }
{
    crate::held::shift(buf, p, n)
}

// Whether a session writes no more.
pub fn is_over(phase: Phase) -> bool
    ensures { result ≡ is_over phase }
{
    matches!(phase, Phase::Over)
}
