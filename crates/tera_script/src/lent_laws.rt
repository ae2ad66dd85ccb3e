//! Which lines are read without memory. Each function does nothing, and its contract is the law.
ghost use Rattle.std.specs.Prelude.{ℕ, List, codes};
ghost use Rattle.tera_meaning.specs.Request.{Command};
ghost use Rattle.tera_script.specs.Line.{BringsNothing, HasNoEscape, Says, SaysLent};

use crate::laws::one_command;
use crate::worked::{worked_calls, worked_names, worked_values};

/// Lines that bring no value and have no escape, and two that are read into memory.
pub fn worked_lent_lines()
    ensures name { SaysLent (codes "get a") }
    ensures names { SaysLent (codes "eq a b") }
    ensures bounds { SaysLent (codes "slice a 1 _ -1") }
    ensures spaced { SaysLent (codes "mark_safe a\t->  a ") }
    ensures text { SaysLent (codes "attr a \"[b]\"") }
    ensures escape { ¬ SaysLent (codes "attr a \"\\n\"") }
    ensures value { ¬ SaysLent (codes "set a 1") }
{
    one_command();
    worked_calls();
    worked_names();
    worked_values();
}

/// Each command that brings nothing is lent, where its line has no escape.
pub fn commands_that_bring_nothing_are_lent()
    ensures { (line : List ℕ) (command : Command) → Says line command → HasNoEscape line
        → BringsNothing command.request → SaysLent line }
{}
