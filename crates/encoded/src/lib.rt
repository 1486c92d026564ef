// A slot stored in rows by the encoder; and that the encoder's words say what was encoded, whatever it is.
#![tactic(auto)]

ghost use Rattle.std.specs.Prelude.{◌≡◌};
ghost use Rattle.live.specs.Path.{with_ring, with_rtts};
ghost use Rattle.cells.specs.Code.{settings_row};
ghost use Rattle.rows.specs.Parts.{with_samples, with_spans};
ghost use Rattle.rows.specs.View.{path_in, slot_in};
ghost use Rattle.rows.specs.Encode.{slot_rows};
ghost use Rattle.rows.specs.Says.{Says};
ghost use Rattle.peer.specs.Record.{record_in, record_rows};
ghost use Rattle.encoded.specs.Probed.{probed_with, measured_with};

use live::types::Liveness;
use ring::types::*;
use rowmeasures::*;
use rows::places::*;
use rows::probes::*;
use rtt::types::*;
use rules::types::*;
use select::types::PATH_MAX_PER_PEER;
use waiting::store::set_lates;

// Stores the ring.
fn set_ring(p: &mut [[u64; 4]; ROWS], l: [Sent; RING])
    ensures { Says p.old p.new (with_ring (path_in p.old) l) }
{
    for i in 0..RING {
        set_sent(p, i, l[i]);
    }
}

// Stores what a path keeps of its probes.
fn set_probes(p: &mut [[u64; 4]; ROWS], path: Liveness)
    ensures { Says p.old p.new (probed_with (path_in p.old) path) }
{
    set_ring(p, path.ring);
    set_lates(p, path.late);
    set_ids(p, path.ids);
    set_ladder(p, path.ladder);
    set_misses(p, path.misses);
}

// Stores the samples of the window.
fn set_samples(p: &mut [[u64; 4]; ROWS], l: [Sample; SAMPLES])
    ensures { Says p.old p.new (with_samples (path_in p.old) l) }
{
    for i in 0..SAMPLES {
        set_sample(p, i, l[i]);
    }
}

// Stores the spans of the horizon.
fn set_spans(p: &mut [[u64; 4]; ROWS], l: [Span; SPANS])
    ensures { Says p.old p.new (with_spans (path_in p.old) l) }
{
    for i in 0..SPANS {
        set_span(p, i, l[i]);
    }
}

// Stores the round trips.
fn set_rtts(p: &mut [[u64; 4]; ROWS], r: Rtts)
    ensures { Says p.old p.new (with_rtts (path_in p.old) r) }
{
    set_samples(p, r.samples);
    set_spans(p, r.spans);
    set_trip(p, r.rtt);
}

// Stores what a path has measured, and its silence.
fn set_measures(p: &mut [[u64; 4]; ROWS], path: Liveness)
    ensures { Says p.old p.new (measured_with (path_in p.old) path) }
{
    set_rtts(p, path.rtts);
    set_sizes(p, path.sizes);
    set_traffic(p, path.traffic);
    set_etx(p, path.etx);
    set_quiet(p, path.silence.quiet);
    set_stop(p, path.silence.stop);
}

// Stores a slot: the very words, and they say it.
pub fn save(p: &mut [[u64; 4]; ROWS], s: Slot)
    ensures { (p.new ≡ slot_rows s) × (slot_in p.new ≡ s) }
{
    rows::whole::set_new(p, s.used, s.label);
    set_probes(p, s.path);
    set_measures(p, s.path);
}

// The encoder's rows of a slot say it.
pub fn slot_said(s: Slot)
    ensures { slot_in (slot_rows s) ≡ s }
{
    let mut p = [[0; 4]; ROWS];
    save(&mut p, s);
}

// The encoder's words of a record say it.
pub fn record_said(rec: Record)
    ensures { record_in (settings_row rec.settings) (record_rows rec) ≡ rec }
{
    for i in 0..PATH_MAX_PER_PEER {
        slot_said(rec.slots[i]);
    }
}
