//! What is true of all words and of all lines of clients, as contracts of functions with empty bodies.

ghost use Rattle.std.specs.Prelude.{◌≡◌, ◌<◌, ◌^◌, ℕ, List, [], ◌∷◌, map, Some, IsTrue};
ghost use Rattle.std.specs.Fmt.{decimal};
ghost use Rattle.ham_text.specs.Numbers.{AreNumbers};
ghost use Rattle.ham_syntax.specs.Names.{is_name};
ghost use Rattle.ham_syntax.specs.Checked.{IsChecked};
ghost use Rattle.ham_syntax.specs.Objects.{Schema};
ghost use Rattle.ham_lines.specs.declared.fault.LineFault.{LineFault};
ghost use Rattle.ham_lines.specs.declared.named.NamedAct.{NamedAct};
ghost use Rattle.ham_lines.specs.declared.named.NamedCounter.{NamedCounter};
ghost use Rattle.ham_lines.specs.declared.client.ClientLine.{ClientLine};
ghost use Rattle.ham_lines.specs.declared.client.ClientWritten.{ClientWritten};
ghost use Rattle.ham_lines.specs.Named.{act_words, counter_words, IsNamedAct, IsNamedCounter};
ghost use Rattle.ham_lines.specs.Reading.{one_number, two_numbers, three_numbers, act_of, counter_of, relation_of};
ghost use Rattle.ham_lines.specs.Clients.{IsClientSpelling, ClientSpells, ClientFails};

/// What is found in words is written so.
pub fn what_is_found_is_written()
    ensures one { (words : List (List ℕ)) (n : ℕ) → one_number words ≡ Some n → AreNumbers (n ∷ []) × (words ≡ map decimal (n ∷ [])) }
    ensures two { (words : List (List ℕ)) (p : ℕ × ℕ) → two_numbers words ≡ Some p → AreNumbers (p.0 ∷ p.1 ∷ []) × (words ≡ map decimal (p.0 ∷ p.1 ∷ [])) }
    ensures three { (words : List (List ℕ)) (p : ℕ × ℕ × ℕ) → three_numbers words ≡ Some p → AreNumbers (p.0 ∷ p.1 ∷ p.2 ∷ []) × (words ≡ map decimal (p.0 ∷ p.1 ∷ p.2 ∷ [])) }
    ensures act { (words : List (List ℕ)) (a : NamedAct) → act_of words ≡ Some a → IsNamedAct a × (words ≡ act_words a) }
    ensures counter { (words : List (List ℕ)) (c : NamedCounter) → counter_of words ≡ Some c → IsNamedCounter c × (words ≡ counter_words c) }
    ensures relation { (words : List (List ℕ)) (r : List ℕ) → relation_of words ≡ Some r → IsTrue (is_name r) × (words ≡ r ∷ []) }
{}

/// What is written is found.
pub fn what_is_written_is_found()
    ensures one { (n : ℕ) → n < 2 ^ 64 → one_number (map decimal (n ∷ [])) ≡ Some n }
    ensures two { (a b : ℕ) → AreNumbers (a ∷ b ∷ []) → two_numbers (map decimal (a ∷ b ∷ [])) ≡ Some (a, b) }
    ensures three { (a b c : ℕ) → AreNumbers (a ∷ b ∷ c ∷ []) → three_numbers (map decimal (a ∷ b ∷ c ∷ [])) ≡ Some (a, b, c) }
    ensures act { (a : NamedAct) → IsNamedAct a → act_of (act_words a) ≡ Some a }
    ensures counter { (c : NamedCounter) → IsNamedCounter c → counter_of (counter_words c) ≡ Some c }
    ensures relation { (r : List ℕ) → IsTrue (is_name r) → relation_of (r ∷ []) ≡ Some r }
{}

/// Bytes spell one line of a client at most.
pub fn client_lines_have_one_reading()
    ensures written { (w v : ClientWritten) (bytes : List ℕ) → IsClientSpelling w bytes → IsClientSpelling v bytes → w ≡ v }
    ensures line { (o : Schema) → IsChecked o → (l m : ClientLine) (bytes : List ℕ) → ClientSpells o l bytes → ClientSpells o m bytes → l ≡ m }
{}

/// Bytes spell a line of a client or fail, and not both, and they fail for one reason at most. So each reason comes exactly
/// where it is true.
pub fn client_readings_are_exact()
    ensures line { (o : Schema) → IsChecked o → (l : ClientLine) (bytes : List ℕ) (fault : LineFault) → ClientSpells o l bytes → ClientFails o bytes fault → ⊥ }
    ensures fault { (o : Schema) (bytes : List ℕ) (fault other : LineFault) → ClientFails o bytes fault → ClientFails o bytes other → fault ≡ other }
{}
