// Lines of four numbers in decimal, into lent bytes.
#![tactic(auto)]

ghost use Rattle.std.specs.Prelude.{◌≡◌, ◌≤◌, length};
ghost use Rattle.octets.specs.Octets.{over};
ghost use Rattle.lines.specs.Text.{decimal, cell_of, line_of, written};

// How many digits a number has in decimal.
fn places(x: u64) -> usize
    ensures { (result ≡ length (decimal x)) × (result ≤ 20) }
{
    // Not counted by an index: the tenths are taken until none is left.
    let mut k: usize = 1;
    let mut rest = x / 10;
    while 0 < rest {
        rest /= 10;
        k += 1;
    }
    k
}

// Writes a number in decimal and one byte after it to the front of `out`, or nothing where they do not fit; gives the
// bytes written.
fn put_number(out: &mut [u8], x: u64, after: u8) -> usize
    ensures { (result ≡ written (cell_of x after) out.old)
        × (result ≤ length out.old)
        × (out.new ≡ over (cell_of x after) out.old) }
{
    let k = places(x);
    if out.len() <= k {
        return 0;
    }
    let mut rest = x;
    for i in (0..k).rev() {
        out[i] = (48 + rest % 10) as u8;
        rest /= 10;
    }
    out[k] = after;
    k + 1
}

// The bytes of a line: the digits, three spaces and a line feed.
fn line_len(number: u64, kind: u64, refusal: u64, value: u64) -> usize
    ensures { (result ≡ length (line_of number kind refusal value)) × (result ≤ 84) }
{
    places(number) + places(kind) + places(refusal) + places(value) + 4
}

// Writes a line to the front of `out`, or nothing where it does not fit; gives the bytes written.
pub fn put_line(out: &mut [u8], number: u64, kind: u64, refusal: u64, value: u64) -> usize
    ensures { (result ≡ written (line_of number kind refusal value) out.old)
        × (result ≤ 84)
        × (out.new ≡ over (line_of number kind refusal value) out.old) }
{
    if out.len() < line_len(number, kind, refusal, value) {
        return 0;
    }
    let a = put_number(out, number, b' ');
    let b = a + put_number(&mut out[a..], kind, b' ');
    let c = b + put_number(&mut out[b..], refusal, b' ');
    c + put_number(&mut out[c..], value, b'\n')
}
