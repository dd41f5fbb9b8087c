//! Workers in threads, and the sum of what they entered.

ghost use Rattle.std.specs.Prelude.{◌≡◌, ◌+◌, ◌≤◌, vec_len, IfOk};
ghost use Rattle.ham_peer.specs.Delivering.{IsGreeting};
ghost use Rattle.ham_workers.specs.Sums.{IsSumOf};

use crate::worker::{Ended, Job, Task, Worker};
use ham_core::{Guarded, Home, Seat, Seats, gathered};
use ham_links::{Clock, Port};
use ham_node::Bells;
use ham_peer::Greeting;
use ham_syntax::{NoMemory, Object};
use std::alloc::{AllocError, Global};
use std::sync::{Mutex, Wait};
use std::thread;
use std::thread::Threads;

/// The most seats of a node: those of one among eight replicas.
pub const MAX_SEATS: u8 = 19;

/// Starts the workers, runs those that had no thread, joins the others, and tells how each ended.
pub fn work<R: Threads + Wait + Sync, L: Home + Send + Sync, J: Job<L> + Send + Drop>(
    rt: &R,
    alloc: Global,
    workers: Vec<J>,
) -> Result<Vec<Ended<L>>, AllocError>
    ensures { IfOk result (λ back. vec_len back ≡ vec_len workers) }
{
    thread::scope(
        thread::scope_env(),
        rt,
        |scope| -> Result<Vec<Ended<L>>, AllocError>
            ensures { IfOk result (λ back. vec_len back ≡ vec_len workers) }
        {
            let count = workers.len();
            let mut back = Vec::with_capacity(alloc, count)?;
            let mut started = Vec::with_capacity(alloc, count)?;
            let mut refused = Vec::with_capacity(alloc, count)?;
            for worker in workers {
                match scope.spawn(move || worker.run()) {
                    Ok(handle) => started.push(handle)?,
                    Err(refusal) => refused.push(refusal.value)?,
                }
            }
            for run in refused {
                back.push(run())?;
            }
            for handle in started {
                back.push(handle.join(rt))?;
            }
            Ok(back)
        },
    )
}

/// A worker for each task, with the next seats.
fn workers<'a, R: Wait, L: Home, P: Port + Drop, C: Clock + Drop>(
    rt: &'a R,
    alloc: Global,
    lock: &'a Mutex<Guarded<L>>,
    bells: &'a Bells,
    object: &'a Object,
    greeting: Greeting,
    seats: &mut Seats<L>,
    tasks: Vec<Task<L, P>>,
    mut clocks: Vec<C>,
) -> Result<Vec<Worker<'a, R, L, P, C>>, AllocError>
    requires home { object.now ≡ L.object }
    requires greets { IsGreeting greeting }
    requires seats { seats.old.next + vec_len tasks ≡ seats.old.count }
    requires clocks { vec_len tasks ≤ vec_len clocks }
    ensures all { IfOk result (λ all. vec_len all ≡ vec_len tasks) }
    ensures taken { IfOk result (λ all. seats.new.next ≡ seats.new.count) }
{
    let mut all = Vec::with_capacity(alloc, tasks.len())?;
    for task in tasks {
        let seat = seats.take().unwrap();
        let clock = clocks.pop().unwrap();
        all.push(Worker {
            rt,
            alloc,
            lock,
            bells,
            object,
            greeting,
            seat,
            clock,
            task,
        })?;
    }
    Ok(all)
}

/// The seats that workers gave back.
fn seats_back<L: Home>(alloc: Global, ends: Vec<Ended<L>>) -> Result<Vec<Seat<L>>, AllocError>
    ensures { IfOk result (λ back. vec_len back ≡ vec_len ends) }
{
    let mut back = Vec::with_capacity(alloc, ends.len())?;
    for end in ends {
        back.push(end.seat)?;
    }
    Ok(back)
}

/// The last audit: how many entries the journal has, which is what the seats entered in all.
fn audit<L: Home>(lock: Mutex<Guarded<L>>, seats: Seats<L>, back: Vec<Seat<L>>) -> u64
    requires taken { seats.next ≡ seats.count }
    requires back { vec_len back ≡ L.parts }
    ensures { IsSumOf L.object L.plan L.me result L.parts }
{
    let guarded = lock.into_inner();
    let _stopped = guarded.stopped();
    guarded.closed_log();
    gathered(guarded, seats.rest(), back)
}

/// Runs a node to its end: how many entries its journal has.
pub fn run_tasks<
    R: Threads + Wait + Sync,
    L: Home + Send + Sync,
    P: Port + Send + Drop,
    C: Clock + Send + Drop,
>(
    rt: &R,
    alloc: Global,
    guarded: Guarded<L>,
    mut seats: Seats<L>,
    object: &Object,
    greeting: Greeting,
    tasks: Vec<Task<L, P>>,
    clocks: Vec<C>,
) -> Result<u64, NoMemory>
    requires home { object.now ≡ L.object }
    requires greets { IsGreeting greeting }
    requires next { seats.next ≡ 0 }
    requires count { seats.count ≡ L.parts }
    requires tasks { vec_len tasks ≡ L.parts }
    requires clocks { vec_len tasks ≤ vec_len clocks }
    ensures { IfOk result (λ entries. IsSumOf L.object L.plan L.me entries L.parts) }
{
    let lock = Mutex::new(guarded);
    let bells = Bells::new();
    let workers = workers(
        rt, alloc, &lock, &bells, object, greeting, &mut seats, tasks, clocks,
    )?;
    let ends = work(rt, alloc, workers)?;
    Ok(audit(lock, seats, seats_back(alloc, ends)?))
}
