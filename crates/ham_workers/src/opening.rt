//! The tasks of a node, with their ports.

ghost use Rattle.std.specs.Prelude.{◌≡◌, ◌+◌, ◌*◌, ◌≤◌, length, vec_len, IfOk, IfErr};
ghost use Rattle.ham_bytes.specs.Causes.{Rose};
ghost use Rattle.ham_syntax.specs.declared.limits.TheConstants.{MAX_REPLICAS};
ghost use Rattle.ham_turns.specs.Settings.{setting_of, IsReplica};
ghost use Rattle.ham_workers.specs.RunEnds.{IsOpeningFault};

use crate::base::{Base, CLIENTS};
use crate::duties::Duty;
use crate::others::{Peer, peers_of, replicas_of};
use crate::worker::Task;
use ham_core::Home;
use ham_links::{Port, Switchboard};
use ham_plan::Plan;
use ham_syntax::NoMemory;
use std::alloc::Global;

/// Why the ports of a node weren't all opened.
#[derive(Clone, Copy, Debug, PartialEq, Eq, Drop)]
pub enum OpeningFault {
    Board,
    NoMemory,
}

/// Adds a task.
fn add<L: Home, P: Port + Drop>(
    mut tasks: Vec<Task<L, P>>,
    task: Task<L, P>,
) -> Result<Vec<Task<L, P>>, OpeningFault>
    ensures ok { IfOk result (λ all. vec_len all ≡ vec_len tasks + 1) }
    ensures fault { IfErr result (λ e. e ≡ OpeningFault.NoMemory) }
{
    match tasks.push(task) {
        Ok(()) => Ok(tasks),
        Err(_) => Err(OpeningFault::NoMemory),
    }
}

/// Adds the tasks of serving clients.
fn add_serving<L: Home, B: Switchboard>(
    mut tasks: Vec<Task<L, B::Port>>,
    base: Base,
    board: &mut B,
) -> Result<Vec<Task<L, B::Port>>, OpeningFault>
    ensures ok { IfOk result (λ all. vec_len all ≡ vec_len tasks + CLIENTS) }
    ensures fault { IfErr result (λ e. IsOpeningFault (B.faults board.old) (B.faults board.new) e) }
    ensures later { B.faults board.old ≤ B.faults board.new }
{
    for worker in 1..CLIENTS + 1 {
        let Ok(port) = board.listen(base.of_clients(worker)) else {
            return Err(OpeningFault::Board);
        };
        tasks = add(
            tasks,
            Task::Tend {
                duty: Duty::Serve,
                port,
            },
        )?;
    }
    Ok(tasks)
}

/// Adds the tasks of reading from peers.
fn add_reading<L: Home, B: Switchboard>(
    mut tasks: Vec<Task<L, B::Port>>,
    peers: Vec<Peer<L>>,
    base: Base,
    board: &mut B,
) -> Result<Vec<Task<L, B::Port>>, OpeningFault>
    ensures ok { IfOk result (λ all. vec_len all ≡ vec_len tasks + vec_len peers) }
    ensures fault { IfErr result (λ e. IsOpeningFault (B.faults board.old) (B.faults board.new) e) }
    ensures later { B.faults board.old ≤ B.faults board.new }
{
    for peer in peers {
        let Ok(port) = board.listen(base.of_peer(peer.number)) else {
            return Err(OpeningFault::Board);
        };
        tasks = add(
            tasks,
            Task::Tend {
                duty: Duty::Read(peer),
                port,
            },
        )?;
    }
    Ok(tasks)
}

/// Adds the tasks of feeding peers.
fn add_feeding<L: Home, B: Switchboard>(
    mut tasks: Vec<Task<L, B::Port>>,
    peers: Vec<Peer<L>>,
    bases: &[Base],
    me: u8,
    board: &mut B,
) -> Result<Vec<Task<L, B::Port>>, OpeningFault>
    requires bases { length bases.now ≡ L.plan.replicas }
    requires few { me ≤ MAX_REPLICAS }
    ensures ok { IfOk result (λ all. vec_len all ≡ vec_len tasks + vec_len peers) }
    ensures fault { IfErr result (λ e. IsOpeningFault (B.faults board.old) (B.faults board.new) e) }
    ensures later { B.faults board.old ≤ B.faults board.new }
{
    for peer in peers {
        let base = bases[usize::from(peer.number - 1)];
        let Ok(port) = board.dialer(base.of_peer(me)) else {
            return Err(OpeningFault::Board);
        };
        tasks = add(
            tasks,
            Task::Tend {
                duty: Duty::Feed(peer),
                port,
            },
        )?;
    }
    Ok(tasks)
}

/// Opens the ports: the tasks of a node, in the order of its seats. First the beat, then serving clients, then reading from
/// each peer, then feeding each.
pub fn open_tasks<L: Home, B: Switchboard>(
    alloc: Global,
    plan: &Plan,
    me: u8,
    bases: &[Base],
    board: &mut B,
) -> Result<Vec<Task<L, B::Port>>, OpeningFault>
    requires plan { plan.now ≡ L.plan }
    requires me { me ≡ L.me }
    requires replica { IsReplica (setting_of L.plan) me }
    requires bases { length bases.now ≡ L.plan.replicas }
    ensures ok { IfOk result (λ all. vec_len all ≡ 2 * L.plan.replicas + 3) }
    ensures fault { IfErr result (λ e. IsOpeningFault (B.faults board.old) (B.faults board.new) e) }
    ensures later { B.faults board.old ≤ B.faults board.new }
{
    let _replicas = replicas_of::<L>(plan);
    let base = bases[usize::from(me - 1)];
    let (Ok(readers), Ok(feeders)) = (peers_of(alloc, plan, me), peers_of(alloc, plan, me)) else {
        return Err(OpeningFault::NoMemory);
    };
    let tasks = add(Vec::new(alloc), Task::Beat)?;
    let tasks = add_serving(tasks, base, board)?;
    let tasks = add_reading(tasks, readers, base, board)?;
    add_feeding(tasks, feeders, bases, me, board)
}
