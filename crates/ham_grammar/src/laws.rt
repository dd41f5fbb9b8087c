//! What is true of every line, as contracts of functions with empty bodies.

ghost use Rattle.std.specs.Prelude.{◌≡◌, ℕ, false, List, Ok};
ghost use Rattle.ham_syntax.specs.Checked.{IsChecked};
ghost use Rattle.ham_syntax.specs.Objects.{Schema};
ghost use Rattle.ham_lines.specs.declared.fault.LineFault.{LineFault};
ghost use Rattle.ham_grammar.specs.declared.line.Line.{Line};
ghost use Rattle.ham_grammar.specs.declared.written.Written.{Written};
ghost use Rattle.ham_grammar.specs.Lines.{IsReading, IsSpelling, Spells, Fails, IsPrintable, printed, is_skipped};
ghost use Rattle.ham_grammar.specs.Typed.{IsTypedLine};
ghost use Rattle.ham_grammar.specs.Computed.{read_of};

/// Bytes spell one line at most.
pub fn lines_have_one_reading()
    ensures written { (w v : Written) (bytes : List ℕ) → IsSpelling w bytes → IsSpelling v bytes → w ≡ v }
    ensures line { (o : Schema) → IsChecked o → (l m : Line) (bytes : List ℕ) → Spells o l bytes → Spells o m bytes → l ≡ m }
{}

/// Bytes spell a line or fail, and not both, and they fail for one reason at most. So each reason comes exactly where it
/// is true.
pub fn readings_are_exact()
    ensures line { (o : Schema) → IsChecked o → (l : Line) (bytes : List ℕ) (fault : LineFault) → Spells o l bytes → Fails o bytes fault → ⊥ }
    ensures fault { (o : Schema) (bytes : List ℕ) (fault other : LineFault) → Fails o bytes fault → Fails o bytes other → fault ≡ other }
{}

/// What bytes spell is computed.
pub fn readings_are_computed()
    ensures reading { (o : Schema) (bytes : List ℕ) → IsReading o bytes (read_of o bytes) }
    ensures spelled { (o : Schema) → IsChecked o → (l : Line) (bytes : List ℕ) → Spells o l bytes → read_of o bytes ≡ Ok l }
{}

/// The text of a line spells it, and is read back.
pub fn printed_lines_are_read_back()
    ensures spells { (o : Schema) → IsChecked o → (l : Line) → IsPrintable o l → IsTypedLine l → Spells o l (printed o l) }
    ensures read { (o : Schema) → IsChecked o → (l : Line) → IsPrintable o l → IsTypedLine l → read_of o (printed o l) ≡ Ok l }
{}

/// What is skipped spells nothing.
pub fn skipped_lines_spell_nothing()
    ensures { (w : Written) (bytes : List ℕ) → IsSpelling w bytes → is_skipped bytes ≡ false }
{}
