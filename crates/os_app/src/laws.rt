//! What is known of all runs.
ghost use Rattle.std.specs.Prelude.{◌≡◌, ◌+◌, ◌≤◌, ℕ, true, Option, None, List, length, option_map};
ghost use Rattle.os_io.specs.Files.{Holds};
ghost use Rattle.instance.specs.Parts.{Parts};
ghost use Rattle.instance.specs.Program.{program};
ghost use Rattle.osil_grammar.specs.Reading.{IsInstanceText};
ghost use Rattle.search_rules.specs.Outcomes.{HaveOneRange, IsPlain};
ghost use Rattle.no_cycles.specs.Beginning.{BeginsFeasible};
ghost use Rattle.command_line.specs.Words.{IsSolve};
ghost use Rattle.os_app.specs.Besides.{HandInNothing};
ghost use Rattle.os_app.specs.Runs.{ProgramRun, Runs, WritesWithinTurns, stores_run};

use disks::Stores;
use handed_results::written_options_hand_in_nothing;
use instance::programs_have_numbers;
use no_cycles::safe_limits_are_enough_from_points;
use osil_grammar::{documents_are_refused_in_one_way, documents_mean_one_instance};
use osol_grammar::{comes_back, options_are_not_refused, read_options_come_back};

/// Law: what `solve --safe` writes, within a time or without, be it ended by a file or not, never names the limit of turns, where neither its words nor its options hand in a result, the instance has one goal and no variables that are whole or may be 0
/// besides, its first values keep each row between its ends, and it has at most 13 variables and rows together.
pub fn safe_solves_stay_within_turns<K: Stores>()
    ensures { (status : ℕ) (run : ProgramRun) (stores stores_after : K) (osil_name : List ℕ) (options_name halt_name : Option (List ℕ)) (osil : List ℕ) (p : Parts) (seconds : Option ℕ) → Runs K.Store.Disk (stores_after ≡ stores) status run (stores_run K.held K.back K.opened K.faults stores stores_after) → IsSolve run.words osil_name options_name None halt_name seconds true → HandInNothing (option_map run.held options_name) → run.held osil_name ≡ Holds osil → IsInstanceText osil p → length p.goals ≡ 1 → IsPlain (program p) → HaveOneRange (program p) → BeginsFeasible (program p) → length p.vars + length p.rows ≤ 13 → WritesWithinTurns status run }
{
    programs_have_numbers();
    safe_limits_are_enough_from_points();
    documents_mean_one_instance();
    documents_are_refused_in_one_way();
    comes_back();
    read_options_come_back();
    written_options_hand_in_nothing();
    options_are_not_refused();
}
