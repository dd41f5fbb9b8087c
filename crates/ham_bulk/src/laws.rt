//! What is so of every script, as contracts of functions that do nothing.

ghost use Rattle.ham_bulk.specs.Scripted.{ScriptsReplay, ScriptsPrint};

use ham_grammar::laws::{printed_lines_are_read_back, readings_are_computed};

/// The script of a number is a schedule that is played to its end, and its run is the script's.
pub fn scripts_replay()
    ensures { ScriptsReplay }
{
    printed_lines_are_read_back();
    readings_are_computed();
}

/// Each line of a script can be printed.
pub fn scripts_print()
    ensures { ScriptsPrint }
{}
