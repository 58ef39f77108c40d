//! The laws that join what a hand makes to what a thread of the step world can make.

ghost use Rattle.brc_work.specs.Automata.{HandsMakeAsThreads, ThreadsMakeAsHands, ThreadsAloneMakeAsHands, HandsStopAsThreads, OuterCallsGiveUpAlike};

/// States that a thread of the step world can make what a hand's thread makes, but for numbers of what `read` has read;
/// that a hand's thread makes what a thread of the step world can make from outside of all instructions without claims
/// and stops; what it can make from inside one, if it calls the host for closes alone; that a hand whose run stops has
/// to do what a thread of the step world has to do that is stopped there; and that what it gives up for the calls
/// around is what such a thread gives up by a true table.
pub fn hands_and_threads_agree()
    ensures hands { HandsMakeAsThreads }
    ensures threads { ThreadsMakeAsHands }
    ensures alone { ThreadsAloneMakeAsHands }
    ensures stops { HandsStopAsThreads }
    ensures outer { OuterCallsGiveUpAlike }
{}
