//! Laws of calls: how many instructions a thread can begin.

ghost use Rattle.brc_lang.specs.declared.module.Module.{Module};
ghost use Rattle.brc_lang.specs.Grammar.{IsModule};
ghost use Rattle.brc_model.specs.Progress.{Always};
ghost use Rattle.brc_model.specs.Bounded.{CallsAreBounded, ThreadsAreBounded};

/// States that a thread begins at most `call_limit` instructions in one call of a function, with those of the calls
/// that the function makes, whatever the other threads do, and at most as many times that as it makes calls. A step
/// that waits for a lock begins none.
pub fn calls_are_bounded()
    ensures call { (m : Module) → IsModule m → Always CallsAreBounded m }
    ensures thread { (m : Module) → IsModule m → Always ThreadsAreBounded m }
{}
