//! Laws of the host's calls: how their faults are counted, and which resource they use.

ghost use Rattle.std.specs.Prelude.{ℕ};
ghost use Rattle.brc_lang.specs.declared.module.Module.{Module};
ghost use Rattle.brc_model.specs.declared.thread.Choice.{Choice};
ghost use Rattle.brc_model.specs.StepMachine.{StepMachine};
ghost use Rattle.brc_model.specs.Progress.{Always};
ghost use Rattle.brc_lang.specs.Grammar.{IsModule};
ghost use Rattle.brc_model.specs.Paths.{IsAcceptable};
ghost use Rattle.brc_model.specs.HostCalls.{CallsUseTheLent};
ghost use Rattle.brc_model.specs.Faults.{CountsFaults, CountsFit, FaultsAlike};

/// States that an event raises the count of faulted host calls by one, up to the greatest, exactly if it is a host call
/// that faults; that closes are counted so, too; and that a fault means success where neither happens.
pub fn faults_are_counted()
    ensures counted { (m : StepMachine) (event : ℕ × Choice) → CountsFaults m event }
    ensures fits { (p : Module) → Always CountsFit p }
    ensures alike { (m : StepMachine) (t : ℕ) → FaultsAlike m t }
{}

/// States that a thread that is about to read or write by a call of the host has lent it the resource of the file or
/// socket that the instruction names.
pub fn calls_use_what_is_lent()
    ensures { (p : Module) → IsModule p → IsAcceptable p → Always CallsUseTheLent p }
{}
