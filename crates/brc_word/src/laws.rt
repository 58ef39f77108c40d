//! Laws of all words. A function here does nothing: a call of it brings its law into a proof.

ghost use Rattle.std.specs.Prelude.{◌≡◌, ◌≢◌, ℕ, ◌+◌, ◌^◌, ◌%◌, ◌≤◌, ◌<◌, ◌↔◌, ◌==◌, ◌&&◌, nat_lt, pos, ◌+ℤ◌, Bool};
ghost use Rattle.std.specs.Prelude.{Option, None, IsTrue};
ghost use Rattle.brc_word.specs.declared.shared.Shared.{Shared};
ghost use Rattle.brc_word.specs.Header.{IsLocalWord, IsHeaderWord, OfHeader, IsImmortal, MayCount, HasRoom, IsCount};
ghost use Rattle.brc_word.specs.Header.{IsSharedWord, state_of, total, at_zero, at_end, after_choice};
ghost use Rattle.brc_word.specs.Words.{owner_part, local_part, local_word, is_immortal_word, most_local, biased_part};
ghost use Rattle.brc_word.specs.Words.{phase_part, fresh_word, dead_word, released_word, merged_word};

use crate::shared::{Phase, SharedChoice};

/// Each local word has one owner and one local count, and each word of a header is a local word.
pub fn header_words()
    ensures spelled { (word : ℕ) → IsHeaderWord word
        → (owner : Option ℕ) × (local : ℕ) × IsLocalWord word owner local }
    ensures only { (word : ℕ) (owner : Option ℕ) (local : ℕ) → IsLocalWord word owner local
        → IsHeaderWord word }
    ensures one { (word : ℕ) (owner owner' : Option ℕ) (local local' : ℕ)
        → IsLocalWord word owner local → IsLocalWord word owner' local'
        → (owner ≡ owner') × (local ≡ local') }
{}

/// Packing and unpacking are inverse: each shared field has one word, below 2^43 and not of the unused state, and each
/// such word is that of one shared field.
pub fn pack_and_unpack()
    ensures packed { (shared : Shared) → IsCount shared.count
        → (word : ℕ) × IsSharedWord word shared }
    ensures only { (word : ℕ) (shared : Shared) → IsCount shared.count → IsSharedWord word shared
        → (word < 2 ^ 43) × (phase_part word ≢ 1) }
    ensures unpacked { (word : ℕ) → word < 2 ^ 43 → phase_part word ≢ 1
        → (shared : Shared) × IsCount shared.count × IsSharedWord word shared }
    ensures one { (word : ℕ) (shared other : Shared)
        → IsSharedWord word shared → IsSharedWord word other → shared ≡ other }
{}

/// The parts of a local word, and the tests of them, are those of its header.
pub fn local_words_are_headers()
    ensures spelled { (thread local : ℕ) → thread ≤ 32 → local < 2 ^ 32
        → IsLocalWord (local_word thread local) (Some thread) local }
    ensures owner { (word thread local : ℕ) → IsLocalWord word (Some thread) local
        → owner_part word ≡ thread + 1 }
    ensures nobody { (word local : ℕ) → IsLocalWord word None local → owner_part word ≡ 0 }
    ensures local { (word : ℕ) → OfHeader word (λ owner local. local_part word ≡ local) }
    ensures immortal { (word : ℕ) → OfHeader word (λ owner local.
        IsTrue (is_immortal_word word) ↔ IsImmortal local) }
    ensures counts { (word thread : ℕ) (running : Bool) → OfHeader word (λ owner local.
        IsTrue (running && (owner_part word == thread + 1)) ↔ MayCount owner thread running) }
    ensures room { (word : ℕ) → OfHeader word (λ owner local.
        IsTrue (nat_lt (local_part word) most_local) ↔ HasRoom local) }
{}

/// The parts of a shared word, and its changes by a release and a merge, are those of its shared field.
pub fn shared_words_are_headers()
    ensures count { (word : ℕ) (shared : Shared) → IsCount shared.count → IsSharedWord word shared
        → pos (biased_part word) ≡ shared.count +ℤ pos (2 ^ 40) }
    ensures phase { (word : ℕ) (shared : Shared) → IsCount shared.count → IsSharedWord word shared
        → phase_part word ≡ state_of shared.phase }
    ensures fresh { IsSharedWord fresh_word at_zero }
    ensures dead { IsSharedWord dead_word at_end }
    ensures queued { (word : ℕ) → IsSharedWord word at_zero
        → IsSharedWord (released_word word) (after_choice SharedChoice.Queue at_zero) }
    ensures less { (word : ℕ) (shared : Shared) → IsCount shared.count → IsSharedWord word shared
        → shared ≢ at_zero → 1 ≤ biased_part word
        → IsSharedWord (released_word word) (after_choice SharedChoice.Subtract shared) }
    ensures merged { (word carried : ℕ) (shared : Shared) → IsCount shared.count → IsSharedWord word shared
        → IsSharedWord (merged_word word carried)
        (record { count = total carried shared.count; phase = Phase.Merged }) }
{}
