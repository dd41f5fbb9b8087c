//! An input's work: on a replica, on the frames that wait, and on the mark that the node was stopped.

ghost use Rattle.std.specs.Prelude.{◌≡◌, ◌-◌, ◌^◌, ◌<◌, ◌≤◌, IsTrue, false, Some, length};
ghost use Rattle.ham_turns.specs.Settings.{rules_of, setting_of};
ghost use Rattle.ham_turns.specs.Ready.{IsSettled};
ghost use Rattle.ham_replica.specs.Values.{words};
ghost use Rattle.ham_journal.specs.declared.input.Input.TheVariants as inputs;
ghost use Rattle.ham_journal.specs.Drains.{drained};
ghost use Rattle.ham_journal.specs.Replies.{MayEnter, IsFromPeer};
ghost use Rattle.ham_journal.specs.Closed.{IsPlaced};
ghost use Rattle.ham_core.specs.Kept.{Does, Makes, AreSoundIn};

use crate::boxes::Boxes;
use crate::logged::logged_calls;
use crate::marks::{mark, not_delivered, not_issued};
use ham_frame::Frame;
use ham_journal::{Entry, Input, Mark, Reply};
use ham_replica::{Replica, Turn};
use ham_syntax::{Act, Items};
use std::alloc::Global;

/// How an input's work ended: how many calls were logged in it, its mark, and the reply.
type Worked = (u32, Mark, Reply);

/// By how much the log grew.
fn grown(replica: &Replica, old: usize) -> u32
    requires { old ≤ length replica.now.lists.log }
    ensures { result ≡ length replica.now.lists.log - old }
{
    (replica.log().len() - old) as u32
}

/// Logs the calls that are ready: how many were logged, and whether none is ready then.
fn settle_first(replica: &mut Replica) -> (u32, bool)
    ensures drained { drained (rules_of replica.old.site.object) (setting_of replica.old.site.plan) result.0 (words replica.old.lists) ≡ Some (words replica.new.lists) }
    ensures settled { IsTrue result.1 → IsSettled (setting_of replica.old.site.plan) (words replica.new.lists) }
    ensures site { replica.new.site ≡ replica.old.site }
    ensures decided { (words replica.new.lists).decided ≡ (words replica.old.lists).decided }
{
    let old = replica.log().len();
    let settled = replica.settle().is_ok();
    (grown(replica, old), settled)
}

fn issued(replica: &mut Replica, boxes: &mut Boxes, act: &Act) -> Worked
    requires settled { IsSettled (setting_of replica.old.site.plan) (words replica.old.lists) }
    requires placed { IsPlaced (words replica.old.lists) }
    requires sound { AreSoundIn replica.old boxes.old }
    ensures { Does replica.old replica.new boxes.old boxes.new false (inputs.Issue act.now) result.0 result.1 result.2 }
{
    let old = replica.log().len();
    match replica.issue(act) {
        Ok(turn) => {
            let count = grown(replica, old);
            let Turn {
                answer,
                logged,
                out,
                settled,
            } = turn;
            boxes.put(&out);
            (count, mark(settled), Reply::Issued { answer, logged })
        }
        Err(why) => {
            let (mark, reply) = not_issued(why);
            (0, mark, reply)
        }
    }
}

fn delivered(replica: &mut Replica, boxes: &mut Boxes, from: u8, frame: &Frame) -> Worked
    requires settled { IsSettled (setting_of replica.old.site.plan) (words replica.old.lists) }
    requires placed { IsPlaced (words replica.old.lists) }
    requires sound { AreSoundIn replica.old boxes.old }
    requires peer { IsFromPeer (setting_of replica.old.site.plan) replica.old.site.me from frame.now }
    ensures { Does replica.old replica.new boxes.old boxes.new false (inputs.Deliver from frame.now) result.0 result.1 result.2 }
{
    let old = replica.log().len();
    match replica.deliver(from, frame) {
        Ok(turn) => {
            let count = grown(replica, old);
            let Turn {
                answer,
                logged,
                out,
                settled,
            } = turn;
            boxes.put(&out);
            (count, mark(settled), Reply::Delivered { answer, logged })
        }
        Err(why) => {
            let (mark, reply) = not_delivered(why);
            (0, mark, reply)
        }
    }
}

fn ticked(replica: &mut Replica, boxes: &mut Boxes) -> Worked
    requires settled { IsSettled (setting_of replica.old.site.plan) (words replica.old.lists) }
    requires placed { IsPlaced (words replica.old.lists) }
    requires sound { AreSoundIn replica.old boxes.old }
    ensures { Does replica.old replica.new boxes.old boxes.new false inputs.Tick result.0 result.1 result.2 }
{
    match replica.tick() {
        Ok(turn) => {
            let sent = boxes.put(&turn.out);
            (0, mark(turn.settled), Reply::Ticked { sent })
        }
        Err(_) => (0, Mark::NoMemory, Reply::NoMemory),
    }
}

fn collected(replica: &Replica, boxes: &mut Boxes, peer: u8) -> Worked
    requires settled { IsSettled (setting_of replica.now.site.plan) (words replica.now.lists) }
    requires sound { AreSoundIn replica.now boxes.old }
    ensures { Does replica.now replica.now boxes.old boxes.new false (inputs.Collect peer) result.0 result.1 result.2 }
{
    match boxes.first(replica, peer) {
        Ok(frames) => {
            boxes.drop_first(peer);
            (0, Mark::Done, Reply::Collected(frames))
        }
        Err(_) => (0, Mark::NoMemory, Reply::NoMemory),
    }
}

/// An input's work on a settled core that isn't stopped.
fn work(
    alloc: Global,
    replica: &mut Replica,
    boxes: &mut Boxes,
    stopped: &mut bool,
    input: &Input,
) -> Worked
    requires settled { IsSettled (setting_of replica.old.site.plan) (words replica.old.lists) }
    requires placed { IsPlaced (words replica.old.lists) }
    requires sound { AreSoundIn replica.old boxes.old }
    requires going { stopped.old ≡ false }
    requires deliver { MayEnter (setting_of replica.old.site.plan) replica.old.site.me input.now }
    ensures { Does replica.old replica.new boxes.old boxes.new stopped.new input.now result.0 result.1 result.2 }
{
    match input {
        Input::Issue(act) => issued(replica, boxes, act),
        Input::Deliver { from, frame } => delivered(replica, boxes, *from, frame),
        Input::Tick => ticked(replica, boxes),
        Input::Collect { peer } => collected(replica, boxes, *peer),
        Input::Show { counter, key } => {
            let value = replica.state().value(*counter, *key);
            (0, Mark::Done, Reply::Value(value))
        }
        Input::Rows { relation } => match replica.state().rows(alloc, *relation) {
            Ok(rows) => (0, Mark::Done, Reply::Rows(rows)),
            Err(_) => (0, Mark::NoMemory, Reply::NoMemory),
        },
        Input::Verdict { group, number } => {
            let asked = replica.verdict(*group, *number);
            (0, Mark::Done, Reply::Asked(asked))
        }
        Input::Log => match Items::of(alloc, replica.log()) {
            Ok(log) => (0, Mark::Done, Reply::Log(log)),
            Err(_) => (0, Mark::NoMemory, Reply::NoMemory),
        },
        Input::Counts => match Items::of(alloc, replica.counts()) {
            Ok(counts) => (0, Mark::Done, Reply::Counts(counts)),
            Err(_) => (0, Mark::NoMemory, Reply::NoMemory),
        },
        Input::Record => match logged_calls(alloc, replica) {
            Ok(calls) => (0, Mark::Done, Reply::Recorded(calls)),
            Err(_) => (0, Mark::NoMemory, Reply::NoMemory),
        },
        Input::Stop => {
            *stopped = true;
            (0, Mark::Done, Reply::Stopping)
        }
    }
}

/// Enters an input into a core that isn't stopped, and tells it as an entry: it settles, and then does the input's work.
pub(crate) fn entered(
    alloc: Global,
    replica: &mut Replica,
    boxes: &mut Boxes,
    stopped: &mut bool,
    seat: u8,
    input: Input,
) -> (Entry, Reply)
    requires placed { IsPlaced (words replica.old.lists) }
    requires sound { AreSoundIn replica.old boxes.old }
    requires going { stopped.old ≡ false }
    requires deliver { MayEnter (setting_of replica.old.site.plan) replica.old.site.me input }
    ensures { Makes replica.old replica.new boxes.old boxes.new stopped.new seat input result.0 result.1 }
{
    let (before, settled) = settle_first(replica);
    let (logged, mark, reply) = if settled {
        work(alloc, replica, boxes, stopped, &input)
    } else {
        (0, Mark::NoMemory, Reply::NoMemory)
    };
    let entry = Entry {
        seat,
        input,
        before,
        logged,
        mark,
    };
    (entry, reply)
}
