// The word of a slot's marks, and the settings of a record.
ghost use Rattle.std.specs.Prelude.{◌≡◌, ◌<◌};
ghost use Rattle.cells.specs.Cells.{used_in, label_from, label_in, settings_in};
ghost use Rattle.cells.specs.Code.{role_bits, flag_bits, label_word, settings_row};

use cells::words::*;
use rules::types::*;
use select::types::*;

// Whether the slot holds a path.
#[tactic(auto, unfolding(cells::specs::Cells::used_in))]
pub fn used_in(w: u64) -> bool
    ensures { result ≡ used_in w }
{
    w / 65536 % 2 == 1
}

// What an open with this full size and these flags says.
#[tactic(auto, unfolding(cells::specs::Cells::label_from))]
pub fn label_of(size: u64, flags: u64) -> Label
    ensures { result ≡ label_from size flags }
{
    Label {
        full: short(size),
        pinned: flags / PINNED_WEIGHT % 2 == 1,
        fits: flags / FITS_WEIGHT % 2 == 1,
        preferred: flags / PREFERRED_WEIGHT % 2 == 1,
        medium: select::media::medium_of(flags),
        role: select::media::role_of(flags / ROLE_WEIGHT),
    }
}

// What the slot's open said.
pub fn label_in(w: u64) -> Label
    ensures { result ≡ label_in w }
{
    label_of(w, w / 131072)
}

// The number of a role in an open's flags. Beside `medium_bits` it is another enum, and a trait for both is longer.
fn role_bits(m: Role) -> u64
    ensures { (result ≡ role_bits m) × (result < 4) }
{
    match m {
        Role::Never => 0,
        Role::Backup => 1,
        Role::Normal => 2,
        Role::Preferred => 3,
    }
}

// The flags of an open that says this.
fn flag_bits(l: Label) -> u64
    ensures { (result ≡ flag_bits l) × (result < 128) }
{
    select::media::medium_bits(l.medium)
        + ROLE_WEIGHT * role_bits(l.role)
        + PINNED_WEIGHT * u64::from(l.pinned)
        + FITS_WEIGHT * u64::from(l.fits)
        + PREFERRED_WEIGHT * u64::from(l.preferred)
}

// The word that says a slot's marks.
pub fn label_word(used: bool, l: Label) -> u64
    ensures { (result ≡ label_word used l) × (used_in result ≡ used) × (label_in result ≡ l) }
{
    u64::from(l.full) + 65536 * u64::from(used) + 131072 * flag_bits(l)
}

// The settings that four words say.
#[tactic(auto, unfolding(cells::specs::Cells::settings_in))]
pub fn settings_in(t: [u64; 4]) -> Settings
    ensures { result ≡ settings_in t }
{
    Settings {
        cap: t[0],
        gap: t[1],
        window: t[2],
        horizon: t[3],
    }
}

// The words that say settings.
pub fn settings_row(t: Settings) -> [u64; 4]
    ensures { (result ≡ settings_row t) × (settings_in result ≡ t) }
{
    [t.cap, t.gap, t.window, t.horizon]
}
