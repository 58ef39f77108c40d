//! The running threads of a tally.

ghost use Rattle.std.specs.Prelude.{◌≡◌, count_by};
ghost use Rattle.brc_world.specs.Actors.{actor_of};
ghost use Rattle.brc_machine.specs.MachineTallies.{still_runs};

use crate::thread::Thread;
use brc_model::Status;

/// Returns the number of threads that aren't gone.
pub fn running_in(threads: &[Thread]) -> usize
    ensures { result ≡ count_by (λ thread. still_runs (actor_of thread)) threads.now }
{
    let mut running = 0;
    for thread in threads {
        if still_runs(thread) {
            running += 1;
        }
    }
    running
}

fn still_runs(thread: &Thread) -> bool
    ensures { result ≡ still_runs (actor_of thread.now) }
{
    !matches!(thread.status, Status::Gone)
}
