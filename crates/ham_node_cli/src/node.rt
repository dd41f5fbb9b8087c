//! The command `node OBJECT ME BASE1 .. BASEN`.

ghost use Rattle.std.specs.Prelude.{◌≡◌, ◌≤◌, length, vec_len, ℕ, IfSome};
ghost use Rattle.ham_bytes.specs.Causes.{Rose};
ghost use Rattle.ham_node_cli.specs.NodeEnds as ends;
ghost use Rattle.ham_node_cli.specs.NodeReading.{seen};
ghost use Rattle.ham_node_cli.specs.NodeWords.{AskedNode, AsksNode, AsksNoNode, IsOneOf};

use crate::words::{NodeCommand, bases_of, node_of};
use ham_bytes::{Shelf, Sink, Words};
use ham_cli::{Exit, exit_of_fetch, put_usage, refuse_object};
use ham_links::{Clock, Switchboard};
use ham_objfile::{answered_once, read};
use ham_syntax::limits::MAX_OBJECT_BYTES;
use ham_syntax::{NoMemory, Object};
use ham_tables::plan_of;
use ham_workers::{MAX_SEATS, ReplicaEnd, run_replica};
use std::alloc::Global;
use std::sync::Wait;
use std::thread::Threads;

/// How a node ended.
#[derive(Clone, Copy, Debug, PartialEq, Eq)]
pub enum NodeEnd {
    /// It was stopped, and its text was written to its end.
    Stopped,
    /// A port couldn't be opened, and nothing was written.
    BoardFault,
    /// It ended as any command may.
    Ended(Exit),
}

impl NodeEnd {
    /// The status that the process ends with.
    pub fn number(self) -> u8
        ensures { result ≡ ends.status_of self }
    {
        match self {
            NodeEnd::Stopped => 0,
            NodeEnd::BoardFault => 9,
            NodeEnd::Ended(exit) => exit.number(),
        }
    }
}

/// The end of a node whose replica ended so.
fn end_of(end: ReplicaEnd) -> NodeEnd
    ensures { result ≡ ends.end_by end }
{
    match end {
        ReplicaEnd::Stopped => NodeEnd::Stopped,
        ReplicaEnd::BoardFault => NodeEnd::BoardFault,
        ReplicaEnd::WriteFault => NodeEnd::Ended(Exit::WriteFault),
        ReplicaEnd::NoMemory => NodeEnd::Ended(Exit::NoMemory),
    }
}

/// Runs a replica of an object under the plan that the rules derive.
fn run_object<R: Threads + Wait + Sync, B: Switchboard, K: Sink, C: Clock + Send + Drop>(
    rt: &R,
    alloc: Global,
    object: &Object,
    node: &NodeCommand<'_>,
    board: &mut B,
    out: &mut K,
    clocks: Vec<C>,
) -> NodeEnd
    requires one { IsOneOf node.now.me (length node.now.bases.now) }
    requires clocks { MAX_SEATS ≤ vec_len clocks }
    ensures ends { ends.EndsWithNode object.now (seen node.now) (K.taken out.old) (K.taken out.new) result }
    ensures counted { (shelf shelf_now : ℕ) → ends.IsNodeCounted shelf shelf_now (B.faults board.old) (B.faults board.new) (K.faults out.old) (K.faults out.new) result }
{
    let bases = match bases_of(alloc, node.bases) {
        Ok(bases) => bases,
        Err(NoMemory) => return NodeEnd::Ended(Exit::NoMemory),
    };
    let plan = plan_of(object, node.bases.len() as u8);
    let end = run_replica(
        rt, alloc, object, &plan, node.me, &bases, board, out, clocks,
    );
    end_of(end)
}

/// Reads the object, and runs a replica of it.
fn run_text<R: Threads + Wait + Sync, B: Switchboard, K: Sink, C: Clock + Send + Drop>(
    rt: &R,
    alloc: Global,
    text: &[u8],
    node: &NodeCommand<'_>,
    board: &mut B,
    out: &mut K,
    clocks: Vec<C>,
) -> NodeEnd
    requires one { IsOneOf node.now.me (length node.now.bases.now) }
    requires clocks { MAX_SEATS ≤ vec_len clocks }
    ensures ends { ends.EndsReadNode text.now (seen node.now) (K.taken out.old) (K.taken out.new) result }
    ensures counted { (shelf shelf_now : ℕ) → ends.IsNodeCounted shelf shelf_now (B.faults board.old) (B.faults board.new) (K.faults out.old) (K.faults out.new) result }
{
    match read(alloc, text) {
        Ok(object) => run_object(rt, alloc, &object, node, board, out, clocks),
        Err(fault) => NodeEnd::Ended(refuse_object(alloc, &fault, out)),
    }
}

/// Fetches the object's file, and runs a replica of the object in it.
fn run_asked<R: Threads + Wait + Sync, H: Shelf, B: Switchboard, K: Sink, C: Clock + Send + Drop>(
    rt: &R,
    alloc: Global,
    node: &NodeCommand<'_>,
    shelf: &mut H,
    board: &mut B,
    out: &mut K,
    clocks: Vec<C>,
) -> NodeEnd
    requires one { IsOneOf node.now.me (length node.now.bases.now) }
    requires clocks { MAX_SEATS ≤ vec_len clocks }
    ensures ends { IfSome (H.held shelf.old) (λ files. ends.EndsNode (seen node.now) files (K.taken out.old) (K.taken out.new) result) }
    ensures counted { ends.IsNodeCounted (H.faults shelf.old) (H.faults shelf.new) (B.faults board.old) (B.faults board.new) (K.faults out.old) (K.faults out.new) result }
    ensures sought { ends.SeeksNode (seen node.now) (H.sought shelf.old) (H.sought shelf.new) result }
{
    match shelf.fetch(alloc, node.object, MAX_OBJECT_BYTES) {
        Ok(text) => run_text(rt, alloc, text.items(), node, board, out, clocks),
        Err(fault) => NodeEnd::Ended(exit_of_fetch(fault)),
    }
}

/// Runs what `node OBJECT ME BASE1 .. BASEN` asks: one replica of an object's derived plan, until a client stops it. It may
/// wait for ever; what is said of its end holds where it returns.
pub fn run_node<
    R: Threads + Wait + Sync,
    H: Shelf,
    B: Switchboard,
    K: Sink,
    C: Clock + Send + Drop,
>(
    rt: &R,
    alloc: Global,
    words: &Words,
    shelf: &mut H,
    board: &mut B,
    out: &mut K,
    clocks: Vec<C>,
) -> NodeEnd
    requires { MAX_SEATS ≤ vec_len clocks }
    ensures ends { IfSome (H.held shelf.old) (λ files. (asked : AskedNode) → AsksNode words.now asked → ends.EndsNode asked files (K.taken out.old) (K.taken out.new) result) }
    ensures complete { IfSome (H.held shelf.old) (λ files. (asked : AskedNode) → AsksNode words.now asked →
        ends.CompletesNode asked files (Rose (H.faults shelf.old) (H.faults shelf.new)) (Rose (B.faults board.old) (B.faults board.new)) (Rose (K.faults out.old) (K.faults out.new)) result) }
    ensures sought { (asked : AskedNode) → AsksNode words.now asked → ends.SeeksNode asked (H.sought shelf.old) (H.sought shelf.new) result }
    ensures usage { AsksNoNode words.now → ends.EndsUnasked (K.taken out.old) (K.taken out.new) result }
    ensures unsought { AsksNoNode words.now → H.sought shelf.new ≡ H.sought shelf.old }
    ensures counted { ends.IsNodeCounted (H.faults shelf.old) (H.faults shelf.new) (B.faults board.old) (B.faults board.new) (K.faults out.old) (K.faults out.new) result }
{
    // An object's file has one meaning: completeness rests on this law.
    answered_once();
    match node_of(words.items()) {
        Some(node) => run_asked(rt, alloc, &node, shelf, board, out, clocks),
        None => NodeEnd::Ended(put_usage(out)),
    }
}
