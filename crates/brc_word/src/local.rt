ghost use Rattle.std.specs.Prelude.{◌≡◌, ℕ, ◌+◌, ◌-◌, ◌≤◌, ◌<◌, ◌↔◌, Option, None, Some, IsTrue, IsNone, IfSome};
ghost use Rattle.brc_word.specs.Header.{IsLocalWord, IsHeaderWord, OfHeader, IsImmortal, owned};
ghost use Rattle.brc_word.specs.Words.{local_part, immortal_local, is_immortal_word, local_word};

use crate::values::NOBODY;

/// The number of local counts: in the word the owner is above the count.
pub(crate) const LOCAL_COUNTS: u64 = 1 << 32;
/// The local count of an immortal object (PEP 703, Immortalization).
const IMMORTAL: u64 = LOCAL_COUNTS - 1;

/// Returns the local word. Nobody has the local count 0, and threads are 0 to 32.
pub fn local_word(owner: Option<u8>, local: u32) -> u64
    requires nobody { owner ≡ None → local ≡ 0 }
    requires known { IfSome owner (λ thread. thread ≤ 32) }
    ensures header { IsLocalWord result owner local }
    ensures word { IfSome owner (λ thread. result ≡ local_word thread local) }
{
    match owner {
        None => NOBODY,
        Some(thread) => (u64::from(thread) + 1) * LOCAL_COUNTS + u64::from(local),
    }
}

/// Returns the owner and the local count, or `None` if nobody owns the object.
pub fn read_local(word: u64) -> Option<(u8, u32)>
    requires { IsHeaderWord word }
    ensures inverse { OfHeader word (λ owner local. result ≡ owned owner local) }
    ensures found { IfSome result (λ it. IsLocalWord word (Some it.0) it.1) }
    ensures nobody { IsNone result ↔ (word ≡ 0) }
{
    let above = word / LOCAL_COUNTS;
    if above == 0 {
        return None;
    }
    Some(((above - 1) as u8, (word % LOCAL_COUNTS) as u32))
}

/// Returns whether the object is immortal.
pub fn is_immortal(word: u64) -> bool
    ensures header { OfHeader word (λ owner local. IsTrue result ↔ IsImmortal local) }
    ensures word { result ≡ is_immortal_word word }
{
    word % LOCAL_COUNTS == IMMORTAL
}

/// Returns the local count of a word.
pub fn local_count(word: u64) -> u32
    ensures header { OfHeader word (λ owner local. result ≡ local) }
    ensures word { result ≡ local_part word }
{
    (word % LOCAL_COUNTS) as u32
}

/// Returns the local word after a retain by the running owner (PEP 703, Biased Reference Counting).
pub fn local_with_one_more(word: u64) -> u64
    requires { local_part word < immortal_local }
    ensures header { (thread local : ℕ) → IsLocalWord word (Some thread) local
        → IsLocalWord result (Some thread) (local + 1) }
    ensures word { result ≡ word + 1 }
{
    word + 1
}

/// Returns the local word after a release by the running owner (PEP 703, Biased Reference Counting).
pub fn local_with_one_less(word: u64) -> u64
    requires { 1 ≤ local_part word }
    ensures header { OfHeader word (λ owner local. IsLocalWord result owner (local - 1)) }
    ensures word { result ≡ word - 1 }
{
    word - 1
}
