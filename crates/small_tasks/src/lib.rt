// Three small tasks, and which of their actions are optimal.
#![tactic(auto)]

ghost use Rattle.small_tasks.specs.Verdicts.{Verdicts};

// Does nothing: its promise is the verdicts.
pub fn verdicts_stand()
    ensures { Verdicts }
{}
