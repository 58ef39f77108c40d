//! Laws of the host's resources, which the files and sockets of an accepted module have: when the host is asked to
//! close one, and which thread may use one.

ghost use Rattle.brc_lang.specs.declared.module.Module.{Module};
ghost use Rattle.brc_lang.specs.Grammar.{IsModule};
ghost use Rattle.brc_model.specs.Paths.{IsAcceptable};
ghost use Rattle.brc_model.specs.Progress.{Always};
ghost use Rattle.brc_model.specs.ResourceLaws.{ResourcesCloseOnce, LentAreUsedAlone};

/// States that the host is asked at most once to close a row's resource, and that it has been asked once exactly if the
/// row is a file's or a socket's, and is closed or is what its thread closes next.
pub fn resources_close_once()
    ensures { (m : Module) → IsModule m → IsAcceptable m → Always ResourcesCloseOnce m }
{}

/// States that a thread that has a resource lent to a call of the host uses it alone: the field is empty, no other
/// thread has the resource lent, and the thread has locked the object.
pub fn lent_resources_are_used_alone()
    ensures { (m : Module) → IsModule m → IsAcceptable m → Always LentAreUsedAlone m }
{}
