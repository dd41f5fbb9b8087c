//! What is true of cases, as contracts of functions with empty bodies.

ghost use Rattle.std.specs.Prelude.{◌≢◌, Option};
ghost use Rattle.ham_syntax.specs.declared.act.Act.{Act};
ghost use Rattle.ham_syntax.specs.Objects.{Schema, columns_of};
ghost use Rattle.ham_syntax.specs.Checked.{IsChecked};
ghost use Rattle.ham_steps.specs.Content.{State};
ghost use Rattle.ham_meaning.specs.OfObjects.{HasColumns};
ghost use Rattle.ham_rules.specs.declared.claim.Claim.{Claim};
ghost use Rattle.ham_rules.specs.Claims.{ClaimHolds, Derivable};
ghost use Rattle.ham_witness.specs.declared.ids.Ids.{Ids};
ghost use Rattle.ham_witness.specs.declared.kinds.Kinds.{Kinds};
ghost use Rattle.ham_witness.specs.Cases.{ids_of, state_of};
ghost use Rattle.ham_witness.specs.MadeUp.{IsMadeUp};
ghost use Rattle.ham_witness.specs.Shown.{BreaksBy};

/// What breaks a claim's relation shows that the claim doesn't hold, and so that it isn't derivable.
pub fn what_breaks_refutes()
    ensures refutes { (o : Schema) (claim : Claim) (s : State) (a : Act) (b : Option Act) → BreaksBy o claim s a b → ¬ ClaimHolds o claim }
    ensures underivable { (o : Schema) (claim : Claim) (s : State) (a : Act) (b : Option Act) → IsChecked o → BreaksBy o claim s a b → ¬ Derivable o claim }
{}

/// Made-up states are well-formed.
pub fn made_up_states_are_well_formed()
    ensures { (o : Schema) (ids : Ids) (kinds : Kinds) → HasColumns (columns_of o) (state_of o ids kinds) }
{}

/// The two ids of a claim's cases differ.
pub fn ids_differ()
    ensures { (o : Schema) (claim : Claim) → (ids_of o claim).c ≢ (ids_of o claim).d }
{}

/// In a made-up state the rows stand that its kind names, over the two ids, and no others; counters hold its kind's
/// values at their keys, and 0 elsewhere.
pub fn made_up_states_are_as_named()
    ensures { (o : Schema) (ids : Ids) (kinds : Kinds) → ids.c ≢ ids.d → IsMadeUp o ids kinds (state_of o ids kinds) }
{}
