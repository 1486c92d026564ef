// The fields of a standing, in document 01's order.
ghost use Rattle.std.specs.Prelude.{◌≡◌};
ghost use Rattle.standing.specs.Standing.{whole_field, map_of, fields_of, parts_of};

use crate::types::*;

// A field that is always there.
fn whole(width: u8, value: u64) -> Field
    ensures { result ≡ whole_field width value }
{
    Field {
        value: Some(value),
        width,
    }
}

// The map of six fields: the first has the lowest bit.
fn map(on: [bool; 6]) -> u64
    ensures { result ≡ map_of on }
{
    let [a, b, c, d, e, f] = on;
    let high = u64::from(d) + 2 * (u64::from(e) + 2 * u64::from(f));
    u64::from(a) + 2 * (u64::from(b) + 2 * (u64::from(c) + 2 * high))
}

// The fields that may be missing: an instant or a duration has eight bytes, an identifier four, a length two.
fn fields(s: Standing) -> [Field; 6]
    ensures { result ≡ fields_of s }
{
    [
        Field {
            value: s.last,
            width: 8,
        },
        Field {
            value: s.least,
            width: 8,
        },
        Field {
            value: s.base,
            width: 8,
        },
        Field {
            value: s.proven.map(u64::from),
            width: 2,
        },
        Field {
            value: s.answered.map(u64::from),
            width: 4,
        },
        Field {
            value: s.quiet,
            width: 8,
        },
    ]
}

// All that is written: the map, the fields that may be missing, the ETX and the misses.
pub fn parts(s: Standing) -> [Field; 9]
    ensures { result ≡ parts_of s }
{
    let fields = fields(s);
    let map = map(fields.map(|f| f.value.is_some()));
    let [a, b, c, d, e, f] = fields;
    let etx = whole(8, total::etx_bits(s.etx));
    [
        whole(1, map),
        a,
        b,
        c,
        d,
        e,
        f,
        etx,
        whole(4, u64::from(s.misses)),
    ]
}
