//! What is true of the text of records, as contracts of functions with empty bodies.

ghost use Rattle.ham_syntax.specs.Objects.{Schema};
ghost use Rattle.ham_syntax.specs.Checked.{IsChecked};
ghost use Rattle.ham_records.specs.Texts.{TextsAreTexts, TextsAreSpelled};

/// The text of logs spells them, and no other text does.
pub fn records_read_back()
    ensures reads { (o : Schema) → IsChecked o → TextsAreTexts o }
    ensures spelled { (o : Schema) → IsChecked o → TextsAreSpelled o }
{}
