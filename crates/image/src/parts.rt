// Writers of the image's parts: each writes over the front of the lent bytes, or nothing where they are too few.
ghost use Rattle.std.specs.Prelude.{◌≡◌, ◌*◌, length, leb};
ghost use Rattle.octets.specs.Octets.{over, words_of, flat};
ghost use Rattle.image.specs.Image.{marks_words, counts_words, rtts_words, front_words};

use crate::words::*;
use live::types::*;
use octets::put_words;
use ring::types::Ids;
use rtt::types::Rtts;
use seek::types::*;
use stop::types::Silence;

// The elements of a list, one behind the other.
fn write_all<T: Element<W>, const W: usize, const N: usize>(out: &mut [u8], items: &[T; N]) -> bool
    ensures { (result ≡ leb (8 * W * N) (length out.old))
        × (out.new ≡ over (words_of (flat T.words items.now)) out.old) }
{
    if out.len() / 8 < W.saturating_mul(N) {
        return false;
    }
    let mut at = 0;
    for x in items {
        put_words(&mut out[at..], &x.numbers());
        at += 8 * W;
    }
    true
}

// The last RTT, the samples and the spans.
pub fn write_rtts(out: &mut [u8], r: Rtts) -> bool
    ensures { (result ≡ leb 1040 (length out.old))
        × (out.new ≡ over (words_of (rtts_words r)) out.old) }
{
    if out.len() < 1040 {
        return false;
    }
    put_words(out, &time_words(r.rtt));
    write_all(&mut out[16..], &r.samples);
    write_all(&mut out[784..], &r.spans);
    true
}

// The identifiers, the silence clock and the stop.
fn write_marks(out: &mut [u8], ids: Ids, silence: Silence) -> bool
    ensures { (result ≡ leb 136 (length out.old))
        × (out.new ≡ over (words_of (marks_words ids silence)) out.old) }
{
    if out.len() < 136 {
        return false;
    }
    put_words(out, &ids_words(ids));
    put_words(&mut out[64..], &time_words(silence.quiet));
    put_words(&mut out[80..], &stop_words(silence.stop));
    true
}

// The misses, the sizes and the traffic.
fn write_counts(out: &mut [u8], misses: u32, ladder: Ladder, sizes: Sizes, traffic: Traffic) -> bool
    ensures { (result ≡ leb 136 (length out.old))
        × (out.new ≡ over (words_of (counts_words misses ladder sizes traffic)) out.old) }
{
    if out.len() < 136 {
        return false;
    }
    put_words(out, &size_words(misses, ladder, sizes));
    put_words(&mut out[88..], &traffic_words(traffic));
    true
}

// All that stands before the RTTs: ring, late list, marks and counts.
pub fn write_front(out: &mut [u8], path: Liveness) -> bool
    ensures { (result ≡ leb 752 (length out.old))
        × (out.new ≡ over (words_of (front_words path)) out.old) }
{
    if out.len() < 752 {
        return false;
    }
    write_all(out, &path.ring);
    write_all(&mut out[320..], &path.late);
    write_marks(&mut out[480..], path.ids, path.silence);
    write_counts(
        &mut out[616..],
        path.misses,
        path.ladder,
        path.sizes,
        path.traffic,
    );
    true
}
