// Roles and media.
ghost use Rattle.std.specs.Prelude.{◌≡◌, ◌<◌};
ghost use Rattle.select.specs.Media.{tier_of, speed_of, quicker_of, medium_bits, medium_of, role_of};

use crate::types::*;

// The tier of a role, higher ranking first.
pub fn tier(role: Role) -> u8
    ensures { result ≡ tier_of role }
{
    match role {
        Role::Never => 0,
        Role::Backup => 1,
        Role::Normal | Role::Preferred => 2,
    }
}

// The rank of a medium by speed, lower being faster, and 3 for one that has none.
pub fn speed(medium: Medium) -> u8
    ensures { result ≡ speed_of medium }
{
    match medium {
        Medium::Wired => 0,
        Medium::Wireless => 1,
        Medium::Ble => 2,
        Medium::Unknown => 3,
    }
}

// Whether `a` is a faster medium than `b`, both known.
pub fn quicker(a: Medium, b: Medium) -> bool
    ensures { result ≡ quicker_of a b }
{
    let x = speed(a);
    let y = speed(b);
    (y < 3) & (x < y)
}

// The number of a medium, by the order of its variants.
pub fn medium_bits(m: Medium) -> u64
    ensures { (result ≡ medium_bits m) × (result < 4) }
{
    m as u64
}

// A medium by its number, modulo 4: by name, since a From of any number would hide that.
pub fn medium_of(x: u64) -> Medium
    ensures { result ≡ medium_of x }
{
    match x % 4 {
        0 => Medium::Ble,
        1 => Medium::Wired,
        2 => Medium::Wireless,
        _ => Medium::Unknown,
    }
}

// A role by its number, modulo 4: by name too.
pub fn role_of(x: u64) -> Role
    ensures { result ≡ role_of x }
{
    match x % 4 {
        0 => Role::Never,
        1 => Role::Backup,
        2 => Role::Normal,
        _ => Role::Preferred,
    }
}
