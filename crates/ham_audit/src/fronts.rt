//! What stands before the calls that a replica decided, by the greatest numbers of lanes and slots.

ghost use Rattle.std.specs.Prelude.{◌≡◌, ℕ, ◌+◌, ◌<◌, ◌≤◌, ◌∷◌, [], max, length, map, replicate, get_or, slice_index, slice_set, IfOk};
ghost use Rattle.ham_turns.specs.Settings.{IsReplica};
ghost use Rattle.ham_site.specs.Sites.{rules_at, setting_at, slots_at};
ghost use Rattle.ham_audit.specs.Records.{log_of};
ghost use Rattle.ham_audit.specs.Lateness.{slot_at, no_place, reached_by, AreFronts, IsNeeding};
ghost use Rattle.ham_audit.specs.Passing.{IsUnder};

use crate::firsts::IndexedLog;
use ham_lists::{Items, NoMemory};
use ham_records::Logged;
use ham_site::Site;
use ham_syntax::{Place, Places};
use std::alloc::Global;

/// What a front of a log holds: the greatest number of each lane, and of each slot with its lane.
#[derive(Drop)]
struct Front {
    highest: Vec<u32>,
    farthest: Vec<Place>,
}

impl Front {
    /// Nothing.
    fn new(alloc: Global, site: &Site) -> Result<Front, NoMemory>
        ensures highest { IfOk result (λ f. length f.highest.items ≡ (setting_at site.now).lanes) }
        ensures farthest { IfOk result (λ f. length f.farthest.items ≡ slots_at site.now) }
    {
        Ok(Front {
            highest: Vec::from_elem(alloc, 0u32, site.lanes() as usize)?,
            farthest: Vec::from_elem(alloc, Place { lane: 0, number: 0 }, site.slots() as usize)?,
        })
    }

    /// One call more.
    fn take_in(&mut self, site: &Site, logged: &Logged)
        requires lane { logged.now.place.lane < (setting_at site.now).lanes }
        requires method { logged.now.act.method < (setting_at site.now).methods }
        requires lanes { length self.old.highest.items ≡ (setting_at site.now).lanes }
        requires slots { length self.old.farthest.items ≡ slots_at site.now }
        ensures highest { self.new.highest.items ≡ slice_set self.old.highest.items logged.now.place.lane
            (max (slice_index self.old.highest.items logged.now.place.lane) logged.now.place.number) }
        ensures farthest { self.new.farthest.items ≡ slice_set self.old.farthest.items (slot_at (setting_at site.now) logged.now)
            (record { lane = logged.now.place.lane; number = max (get_or self.old.farthest.items (slot_at (setting_at site.now) logged.now) no_place).number logged.now.place.number }) }
    {
        let _me = site.me();
        let place = logged.place;
        let lane = place.lane as usize;
        self.highest[lane] = self.highest[lane].max(place.number);
        let slot = site.slot_of(logged.act.method, site.decider_of(place.lane)) as usize;
        let number = self.farthest[slot].number.max(place.number);
        self.farthest[slot] = Place {
            lane: place.lane,
            number,
        };
    }

    /// Up to where the needs of a call reach that is decided after this front.
    fn places(&self, alloc: Global, site: &Site, logged: &Logged) -> Result<Places, NoMemory>
        requires lane { logged.now.place.lane < (setting_at site.now).lanes }
        requires method { logged.now.act.method < (setting_at site.now).methods }
        requires lanes { length self.now.highest.items ≡ (setting_at site.now).lanes }
        requires slots { length self.now.farthest.items ≡ slots_at site.now }
        ensures { IfOk result (λ found. found ≡ reached_by (setting_at site.now) self.now logged.now) }
    {
        let _me = site.me();
        let lane = logged.place.lane;
        let mut places = Items::new(alloc);
        places.push(Place {
            lane,
            number: self.highest[lane as usize],
        })?;
        let needs = site.needs_of(logged.act.method);
        for slot in needs {
            places.push(self.farthest[*slot as usize])?;
        }
        Ok(places)
    }
}

/// For each call of a log that its replica decided, places that cover the calls before it.
pub fn fronts_of(
    alloc: Global,
    site: &Site,
    logs: &[IndexedLog],
    replica: u8,
) -> Result<Items<Places>, NoMemory>
    requires under { IsUnder site.now logs.now }
    requires planned { IsNeeding site.now }
    requires replica { IsReplica (setting_at site.now) replica }
    ensures fronts { IfOk result (λ fronts. AreFronts (setting_at site.now) replica (log_of logs.now replica) fronts) }
    ensures size { IfOk result (λ fronts. length fronts ≡ length (log_of logs.now replica)) }
{
    let _me = site.me();
    let log = logs[replica as usize - 1].log();
    let mut front = Front::new(alloc, site)?;
    let mut fronts = Items::new(alloc);
    for logged in log {
        fronts.push(front_at(alloc, site, replica, &front, logged)?)?;
        front.take_in(site, logged);
    }
    Ok(fronts)
}

/// Places that cover the front of a call, where the replica decided it; else none.
fn front_at(
    alloc: Global,
    site: &Site,
    replica: u8,
    front: &Front,
    logged: &Logged,
) -> Result<Places, NoMemory>
    requires lane { logged.now.place.lane < (setting_at site.now).lanes }
    requires method { logged.now.act.method < (setting_at site.now).methods }
    requires lanes { length front.now.highest.items ≡ (setting_at site.now).lanes }
    requires slots { length front.now.farthest.items ≡ slots_at site.now }
    ensures { IfOk result (λ found. (setting_at site.now).decider logged.now.place.lane ≡ replica → found ≡ reached_by (setting_at site.now) front.now logged.now) }
{
    if site.decider_of(logged.place.lane) == replica {
        front.places(alloc, site, logged)
    } else {
        Ok(Items::new(alloc))
    }
}
