//! The parts of a world, and what a turn of one of its replicas leaves.

ghost use Rattle.std.specs.Prelude.{◌≡◌, ◌+◌, ◌++◌, ◌≤◌, ◌^◌, ◌∷◌, [], length, OnOk, OnErr};
ghost use Rattle.std.specs.List.{AllByRecursion};
ghost use Rattle.ham_site.specs.Outs.{most_frames};
ghost use Rattle.ham_world.specs.Sending.{Sends, IsOnLink};

use crate::note::{Note, Took};
use crate::send::{LINKS, send};
use ham_frame::Decoder;
use ham_lists::{Bytes, NoMemory};
use ham_plan::Plan;
use ham_replica::Replica;
use ham_site::Outs;
use ham_syntax::limits::MAX_REPLICAS;
use ham_syntax::{Object, Places};
use ham_turns::What;
use ham_wire::Link;

/// What a world is made of. The notes are kept with the oldest first; a call is spelled into `spelled`, and from there put
/// on each link.
#[derive(Drop)]
pub(crate) struct Parts {
    pub object: Object,
    pub plan: Plan,
    pub replicas: Vec<Replica>,
    pub links: Vec<Link>,
    pub decoders: Vec<Decoder>,
    pub spelled: Bytes,
    pub notes: Vec<Note>,
    pub sent: u64,
}

/// Sends the frames of a turn, and notes it. Where memory ran out, no note stands.
pub(crate) fn keep(
    parts: &mut Parts,
    me: u8,
    took: Took,
    what: What,
    logged: Places,
    outs: &Outs,
) -> Result<(), NoMemory>
    requires me { (1 ≤ me) × (me ≤ MAX_REPLICAS) }
    requires on { AllByRecursion IsOnLink outs.now }
    requires links { LINKS ≤ length parts.old.links.items }
    requires sends { length outs.now ≤ most_frames }
    requires sent { parts.old.sent ≤ 2 ^ 40 }
    ensures links { OnOk result (Sends parts.old.links.items parts.new.links.items me outs.now) }
    ensures notes { OnOk result (parts.new.notes.items ≡ parts.old.notes.items
        ++ (record { replica = me; took = took; what = what; logged = logged; sent = length outs.now }) ∷ []) }
    ensures sent { OnOk result (parts.new.sent ≡ parts.old.sent + length outs.now) }
    ensures err { OnErr result (parts.new.notes.items ≡ parts.old.notes.items) }
    ensures replicas { parts.new.replicas.items ≡ parts.old.replicas.items }
    ensures decoders { parts.new.decoders.items ≡ parts.old.decoders.items }
    ensures object { parts.new.object ≡ parts.old.object }
    ensures plan { parts.new.plan ≡ parts.old.plan }
{
    let sent = send(&mut parts.links, &mut parts.spelled, me, outs)?;
    let note = Note {
        replica: me,
        took,
        what,
        logged,
        sent,
    };
    note_last(&mut parts.notes, note)?;
    parts.sent += u64::from(sent);
    Ok(())
}

fn note_last(notes: &mut Vec<Note>, note: Note) -> Result<(), NoMemory>
    ensures ok { OnOk result (notes.new.items ≡ notes.old.items ++ note ∷ []) }
    ensures err { OnErr result (notes.new.items ≡ notes.old.items) }
{
    match notes.push(note) {
        Ok(()) => Ok(()),
        Err(_) => Err(NoMemory),
    }
}
