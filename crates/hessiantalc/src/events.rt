// Files of events: the answers and the standings of the paths as bytes.
ghost use Rattle.std.specs.Prelude.{◌≡◌, length};
ghost use Rattle.eventfile.specs.Claim.{FileDemand};
ghost use Rattle.eventrun.specs.Runs.{out_of};
ghost use Rattle.hessiantalc.specs.Events.{events_reply};

use c_reply::Reply;

// Runs the events of a file on a fresh record, and writes their answers and the standings of the open slots.
#[unsafe(no_mangle)]
pub extern "C" fn hess_events(file: &[u8], out: &mut [u8]) -> Reply
    ensures { (result ≡ events_reply file.now (length out.old))
        × ((out.new ≡ out_of file.now out.old) × FileDemand file.now) }
{
    c_record::of_written(eventrun::run_events(file, out))
}
