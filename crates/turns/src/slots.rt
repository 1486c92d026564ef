// The slots that open and close leave in rows.
ghost use Rattle.std.specs.Prelude.{true};
ghost use Rattle.live.specs.New.{new_liveness};
ghost use Rattle.rules.specs.Rules.{empty_slot};
ghost use Rattle.rules.specs.declared.types.Reply.TheVariants.{Nothing};
ghost use Rattle.cells.specs.Cells.{label_from};
ghost use Rattle.rows.specs.Says.{Turns};

use base::types::Refusal;
use rows::places::ROWS;
use rows::whole::*;
use rules::types::*;

// Open: a path that has done nothing, with the event's flags and full size.
pub fn open(p: &mut [[u64; 4]; ROWS], e: Event) -> Result<Reply, Refusal>
    ensures { Turns p.old p.new result
        (record {
          slot = record { path = new_liveness; label = label_from e.len e.flags; used = true };
          reply = (Ok Nothing);
        }) }
{
    let label = labels::marks::label_of(u64::from(e.len), u64::from(e.flags));
    set_new(p, true, label);
    Ok(Reply::Nothing)
}

// Close: an empty slot.
pub fn close(p: &mut [[u64; 4]; ROWS]) -> Result<Reply, Refusal>
    ensures { Turns p.old p.new result (record { slot = empty_slot; reply = (Ok Nothing) }) }
{
    set_empty(p);
    Ok(Reply::Nothing)
}
