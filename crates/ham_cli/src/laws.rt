//! What is so of every call, as contracts of functions that do nothing.

ghost use Rattle.std.specs.Prelude.{ℕ, List};
ghost use Rattle.ham_cli.specs.Commands.{AsksOnce};
ghost use Rattle.ham_cli.specs.Plans.{HaveOneSetting};
ghost use Rattle.ham_cli.specs.PlayAnswers.{IsPlayedOnce};

use ham_runs::laws::plans_have_one_setting;
use ham_tables::laws::derived_plans_say_one;

/// The derived plans of an object for so many replicas have one setting.
pub fn derived_plans_have_one_setting()
    ensures { HaveOneSetting }
{
    derived_plans_say_one();
    plans_have_one_setting();
}

/// An object and a schedule fix what is played: the text, the refused line and the run.
pub fn schedules_are_played_once()
    ensures { IsPlayedOnce }
{
    derived_plans_have_one_setting();
}

/// Words ask one command at most.
pub fn words_ask_one_command()
    ensures { (words : List (List ℕ)) → AsksOnce words }
{}
