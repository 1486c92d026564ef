// A list of cases. A case is two parts: the bytes of an event file and those of its lines, or a list of events in words
// and the standings after it. A part is a length of four bytes, the lowest first, and so many bytes.
#![tactic(auto)]

ghost use Rattle.std.specs.Prelude.{◌≡◌};
ghost use Rattle.caselist.specs.Cases.{is_whole, file_agrees, parts_agree, case_agrees, case_end};

use lists::list_agrees;

pub mod lists;

// Whether the case at a place lies within the bytes.
fn is_whole(s: &[u8], at: usize) -> bool
    ensures { result ≡ is_whole s.now at }
{
    let len = s.len();
    if len < at {
        return false;
    }
    let n = octets::get(s, at, 4) as usize;
    if len - at < 4 + n {
        return false;
    }
    let p = at + 4 + n;
    let m = octets::get(s, p, 4) as usize;
    4 + m <= len - p
}

// Whether a file is small enough and gives just these lines.
fn file_agrees(file: &[u8], lines: &[u8]) -> bool
    ensures { result ≡ file_agrees file.now lines.now }
{
    let mut out = [0u8; 65536];
    let Ok(k) = portions::whole::lines_of_file(file, &mut out) else {
        return false;
    };
    check::same(&out[0..k], lines)
}

// Whether two parts agree: a list of events in words and its standings, or a file and its lines.
fn parts_agree(listed: bool, told: &[u8], given: &[u8]) -> bool
    ensures { result ≡ parts_agree listed told.now given.now }
{
    if listed {
        return list_agrees(told, given);
    }
    file_agrees(told, given)
}

// Whether the case at a place is whole, and its parts agree.
pub fn case_agrees(listed: bool, s: &[u8], at: usize) -> bool
    ensures { result ≡ case_agrees listed s.now at }
{
    if is_whole(s, at) {
        let n = octets::get(s, at, 4) as usize;
        let p = at + 4 + n;
        let m = octets::get(s, p, 4) as usize;
        return parts_agree(listed, &s[at + 4..p], &s[p + 4..p + 4 + m]);
    }
    false
}

// The place after the case at a place, or the end of the bytes where that case is cut short.
pub fn case_end(s: &[u8], at: usize) -> usize
    ensures { result ≡ case_end s.now at }
{
    if is_whole(s, at) {
        let n = octets::get(s, at, 4) as usize;
        let p = at + 4 + n;
        let m = octets::get(s, p, 4) as usize;
        return p + 4 + m;
    }
    s.len()
}
