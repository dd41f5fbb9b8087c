//! A replica from its beginning to its end.

ghost use Rattle.std.specs.Prelude.{◌≡◌, ◌+◌, ◌*◌, ◌≤◌, length, vec_len, ℕ, IfOk, IfErr};
ghost use Rattle.sha2.specs.Sha256.{sha256};
ghost use Rattle.ham_plain.specs.Written.{plain_of};
ghost use Rattle.ham_turns.specs.Settings.{setting_of, IsReplica};
ghost use Rattle.ham_peer.specs.Delivering.{IsGreeting};
ghost use Rattle.ham_workers.specs.declared.running.TheConstants.{MAX_SEATS};
ghost use Rattle.ham_workers.specs.RunEnds as ends;
ghost use Rattle.ham_workers.specs.Sums.{IsSumOf};

use crate::base::Base;
use crate::opening::{OpeningFault, open_tasks};
use crate::others::replicas_of;
use crate::running::{MAX_SEATS, run_tasks};
use crate::worker::Task;
use ham_bytes::{Sink, put_all};
use ham_core::{Guarded, Home, Seats};
use ham_digest::digest;
use ham_links::{Clock, Port, Switchboard};
use ham_peer::Greeting;
use ham_plan::Plan;
use ham_replica::Replica;
use ham_syntax::{Bytes, NoMemory, Object};
use std::alloc::Global;
use std::marker::Brand;
use std::sync::Wait;
use std::sync::ledger::Blank;
use std::thread::Threads;

const READY: &[u8] = b"ready\n";

/// How a replica ended.
#[derive(Clone, Copy, Debug, PartialEq, Eq)]
pub enum ReplicaEnd {
    /// It was stopped, and its text was written to its end.
    Stopped,
    /// A port couldn't be opened, and nothing was written.
    BoardFault,
    /// The sink failed; a front of the text was written.
    WriteFault,
    /// Memory ran out; a front of the text was written.
    NoMemory,
}

/// What a replica says of itself.
fn greeting_of(alloc: Global, object: &Object, me: u8, of: u8) -> Result<Greeting, NoMemory>
    ensures { IfOk result (λ g. (g.digest ≡ sha256 (plain_of object.now)) × (g.from ≡ me) × (g.of ≡ of)) }
{
    Ok(Greeting {
        digest: digest(alloc, object)?,
        from: me,
        of,
    })
}

/// What lies behind the lock at first, and the seats.
fn begin<L: Home>(
    alloc: Global,
    blank: Blank,
    object: &Object,
    plan: &Plan,
    me: u8,
    seats: u8,
) -> Result<(Guarded<L>, Seats<L>), NoMemory>
    requires name { blank.name ≡ L.name }
    requires parts { blank.parts ≡ L.parts }
    requires seats { seats ≡ L.parts }
    requires object { object.now ≡ L.object }
    requires plan { plan.now ≡ L.plan }
    requires me { me ≡ L.me }
    requires replica { IsReplica (setting_of plan.now) me }
    ensures { IfOk result (λ r. (r.1.next ≡ 0) × (r.1.count ≡ L.parts)) }
{
    let replica = Replica::new(alloc, object, plan, me)?;
    Guarded::new(alloc, blank, replica, plan, seats)
}

/// The line that tells how many entries the journal has.
fn stopped_line(alloc: Global, entries: u64) -> Result<Bytes, NoMemory>
    ensures { IfOk result (λ line. line ≡ ends.stopped_line entries) }
{
    Ok(Bytes::from(format!(in alloc; "stopped {entries}\n")?.into_bytes()))
}

/// A node whose ports are open, before its workers start.
#[derive(Drop)]
struct Opened<L: Home, P: Port + Drop> {
    guarded: Guarded<L>,
    seats: Seats<L>,
    greeting: Greeting,
    tasks: Vec<Task<L, P>>,
    ghost next: { seats.next ≡ 0 },
    ghost count: { seats.count ≡ L.parts },
    ghost each: { vec_len tasks ≡ L.parts },
    ghost few: { vec_len tasks ≤ MAX_SEATS },
    ghost greets: { IsGreeting greeting },
}

/// Opens the ports of a node, and makes what its workers share.
fn open<L: Home, B: Switchboard>(
    alloc: Global,
    blank: Blank,
    object: &Object,
    plan: &Plan,
    me: u8,
    bases: &[Base],
    board: &mut B,
) -> Result<Opened<L, B::Port>, OpeningFault>
    requires name { blank.name ≡ L.name }
    requires parts { blank.parts ≡ L.parts }
    requires seats { ends.seats_of L.plan.replicas ≡ L.parts }
    requires object { object.now ≡ L.object }
    requires plan { plan.now ≡ L.plan }
    requires me { me ≡ L.me }
    requires replica { IsReplica (setting_of L.plan) me }
    requires bases { length bases.now ≡ L.plan.replicas }
    ensures fault { IfErr result (λ e. ends.IsOpeningFault (B.faults board.old) (B.faults board.new) e) }
{
    let replicas = replicas_of::<L>(plan);
    let tasks = open_tasks::<L, B>(alloc, plan, me, bases, board)?;
    let Ok((guarded, seats)) = begin::<L>(alloc, blank, object, plan, me, 2 * replicas + 3) else {
        return Err(OpeningFault::NoMemory);
    };
    match greeting_of(alloc, object, me, replicas) {
        Ok(greeting) => {
            Ok(Opened {
                guarded,
                seats,
                greeting,
                tasks,
            })
        }
        Err(NoMemory) => Err(OpeningFault::NoMemory),
    }
}

/// Puts the line that tells how many entries the journal has.
fn put_stopped<K: Sink>(alloc: Global, out: &mut K, entries: u64) -> ReplicaEnd
    ensures ends { ends.PutsStopped (K.taken out.old) (K.taken out.new) entries result }
    ensures counted { (board board_now : ℕ) → ends.IsRunCounted board board_now (K.faults out.old) (K.faults out.new) result }
    ensures later { K.faults out.old ≤ K.faults out.new }
{
    let line = match stopped_line(alloc, entries) {
        Ok(line) => line,
        Err(NoMemory) => return ReplicaEnd::NoMemory,
    };
    match put_all(out, line.items()) {
        Ok(()) => ReplicaEnd::Stopped,
        Err(_) => ReplicaEnd::WriteFault,
    }
}

/// Runs a node whose ports are open, and writes its text.
fn run_opened<
    R: Threads + Wait + Sync,
    L: Home + Send + Sync,
    P: Port + Send + Drop,
    K: Sink,
    C: Clock + Send + Drop,
>(
    rt: &R,
    alloc: Global,
    object: &Object,
    opened: Opened<L, P>,
    out: &mut K,
    clocks: Vec<C>,
) -> ReplicaEnd
    requires home { object.now ≡ L.object }
    requires seats { ends.seats_of L.plan.replicas ≡ L.parts }
    requires clocks { MAX_SEATS ≤ vec_len clocks }
    ensures ends { ends.EndsRun L.object L.plan L.me (K.taken out.old) (K.taken out.new) result }
    ensures counted { (board board_now : ℕ) → ends.IsRunCounted board board_now (K.faults out.old) (K.faults out.new) result }
{
    match put_all(out, READY) {
        Ok(()) => {}
        Err(_) => return ReplicaEnd::WriteFault,
    }
    let Opened {
        guarded,
        seats,
        greeting,
        tasks,
    } = opened;
    match run_tasks(rt, alloc, guarded, seats, object, greeting, tasks, clocks) {
        Ok(entries) => put_stopped(alloc, out, entries),
        Err(NoMemory) => ReplicaEnd::NoMemory,
    }
}

/// Runs the replica that a ledger is of.
fn run_home<
    R: Threads + Wait + Sync,
    L: Home + Send + Sync,
    B: Switchboard,
    K: Sink,
    C: Clock + Send + Drop,
>(
    rt: &R,
    alloc: Global,
    blank: Blank,
    object: &Object,
    plan: &Plan,
    me: u8,
    bases: &[Base],
    board: &mut B,
    out: &mut K,
    clocks: Vec<C>,
) -> ReplicaEnd
    requires name { blank.name ≡ L.name }
    requires parts { blank.parts ≡ L.parts }
    requires seats { ends.seats_of L.plan.replicas ≡ L.parts }
    requires object { object.now ≡ L.object }
    requires plan { plan.now ≡ L.plan }
    requires me { me ≡ L.me }
    requires replica { IsReplica (setting_of L.plan) me }
    requires bases { length bases.now ≡ L.plan.replicas }
    requires clocks { MAX_SEATS ≤ vec_len clocks }
    ensures ends { ends.EndsRun L.object L.plan L.me (K.taken out.old) (K.taken out.new) result }
    ensures counted { ends.IsRunCounted (B.faults board.old) (B.faults board.new) (K.faults out.old) (K.faults out.new) result }
{
    match open::<L, B>(alloc, blank, object, plan, me, bases, board) {
        Ok(opened) => run_opened(rt, alloc, object, opened, out, clocks),
        Err(OpeningFault::Board) => ReplicaEnd::BoardFault,
        Err(OpeningFault::NoMemory) => ReplicaEnd::NoMemory,
    }
}

/// Runs one replica of an object under a plan until it is stopped. It opens the ports, by the bases of all replicas, writes
/// `ready`, runs its workers, each with a clock of its own, and writes `stopped` and how many entries the journal has. It may
/// wait for ever; what is said of its end holds where it returns.
pub fn run_replica<R: Threads + Wait + Sync, B: Switchboard, K: Sink, C: Clock + Send + Drop>(
    rt: &R,
    alloc: Global,
    object: &Object,
    plan: &Plan,
    me: u8,
    bases: &[Base],
    board: &mut B,
    out: &mut K,
    clocks: Vec<C>,
) -> ReplicaEnd
    requires replica { IsReplica (setting_of plan.now) me }
    requires bases { length bases.now ≡ plan.now.replicas }
    requires clocks { MAX_SEATS ≤ vec_len clocks }
    ensures ends { ends.EndsRun object.now plan.now me (K.taken out.old) (K.taken out.new) result }
    ensures counted { ends.IsRunCounted (B.faults board.old) (B.faults board.new) (K.faults out.old) (K.faults out.new) result }
{
    let seats = 2 * u64::from(plan.replicas()) + 3;
    run_home::<R, Brand, B, K, C>(
        rt,
        alloc,
        Blank::new(seats),
        object,
        plan,
        me,
        bases,
        board,
        out,
        clocks,
    )
}
