//! What turns do: a decision, a drain, and when a call may be logged.

ghost use Rattle.ham_syntax.specs.Objects.{Schema};
ghost use Rattle.ham_syntax.specs.Checked.{IsChecked};
ghost use Rattle.ham_meaning.specs.OfObjects.{meaning};
ghost use Rattle.ham_laws.specs.Turns.{DecisionsKeep, DeliveriesKeep, DrainsKeep, PartDrainsKeep};
ghost use Rattle.ham_laws.specs.Drain.{DrainsExist, DrainsReach};
ghost use Rattle.ham_laws.specs.Lanes.{DecisionsKeepLanes, DeliveriesKeepLanes, DrainsKeepLanes};
ghost use Rattle.ham_laws.specs.Counts.{ReadyExactly};

/// A replica that decides a permissible call, with every conflicting call in its log, keeps an execution
/// well-coordinated.
pub fn decisions_keep()
    ensures { (o : Schema) → IsChecked o → DecisionsKeep (meaning o) }
{}

/// A replica that drains what was delivered to it keeps an execution well-coordinated.
pub fn drains_keep()
    ensures { (o : Schema) → IsChecked o → DrainsKeep (meaning o) }
{}

/// Whatever is delivered keeps an execution well-coordinated, also where a drain stops half-way.
pub fn deliveries_keep()
    ensures deliveries { (o : Schema) → DeliveriesKeep (meaning o) }
    ensures half_way { (o : Schema) → PartDrainsKeep (meaning o) }
{}

/// From each log there is a drain of what was delivered.
pub fn drains_exist()
    ensures { (o : Schema) → DrainsExist (meaning o) }
{}

/// A drain lists exactly the reach of the log and the delivered calls after the log, leaves a closed log closed, and where lanes are
/// ordered it can leave one log only, in whatever order the calls came.
pub fn drains_list_the_reach()
    ensures { (o : Schema) → IsChecked o → DrainsReach (meaning o) }
{}

/// A turn keeps the calls of each lane ordered and numbered, if a replica decides only where it has logged the whole
/// lane.
pub fn lanes_stay_ordered()
    ensures decisions { (o : Schema) → IsChecked o → DecisionsKeepLanes (meaning o) }
    ensures drains { (o : Schema) → IsChecked o → DrainsKeepLanes (meaning o) }
    ensures deliveries { (o : Schema) → DeliveriesKeepLanes (meaning o) }
{}

/// A call is ready by its number and its counts exactly where it may be logged next.
pub fn ready_by_counts()
    ensures { (o : Schema) → IsChecked o → ReadyExactly (meaning o) }
{}
