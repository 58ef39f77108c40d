//! Laws of all texts. A function here does nothing: a call of it brings its law into a proof.

ghost use Rattle.std.specs.Prelude.{◌≡◌, ◌≢◌, ◌⊎◌, ℕ, ◌≤◌, List, ◌++◌, length};
ghost use Rattle.brc_lang.specs.declared.fault.FaultCode.{FaultCode};
ghost use Rattle.brc_lang.specs.declared.fault.FaultCode.TheVariants.{CutOff, NoMemory};
ghost use Rattle.brc_lang.specs.declared.module.Module.{Module};
ghost use Rattle.brc_lang.specs.declared.version.Version.TheVariants as versions;
ghost use Rattle.brc_lang.specs.Grammar.{Spells, IsModule, text, first_line};
ghost use Rattle.brc_lang.specs.Fault.{HasFault};
ghost use Rattle.brc_lang.specs.EachText.{SpellsAModule, HasAFault};
ghost use Rattle.brc_lang.specs.RoundTrips.{TextsRoundTrip};

/// Each text spells at most one module, or has at most one fault, and never both.
pub fn one_reading()
    ensures one_module { (bytes : List ℕ) (m n : Module) → Spells bytes m → Spells bytes n → m ≡ n }
    ensures one_fault { (bytes : List ℕ) (k l : ℕ) (c d : FaultCode) → HasFault bytes k c → HasFault bytes l d
        → (k ≡ l) × (c ≡ d) }
    ensures apart { (bytes : List ℕ) (m : Module) (line : ℕ) (code : FaultCode) → Spells bytes m
        → HasFault bytes line code → ⊥ }
{}

/// Each text spells a module or has a fault. A text's own fault is never `NoMemory`.
pub fn each_text_reads()
    ensures a_module_or_a_fault { (bytes : List ℕ) → SpellsAModule bytes ⊎ HasAFault bytes }
    ensures own_fault { (bytes : List ℕ) (line : ℕ) (code : FaultCode) → HasFault bytes line code → code ≢ NoMemory }
{}

/// A fault other than `CutOff` stays, however the text goes on behind at least as many bytes as the first line has.
pub fn fault_stays()
    ensures { (bytes more : List ℕ) (line : ℕ) (code : FaultCode) → length (first_line versions.One) ≤ length bytes
        → code ≢ CutOff → HasFault bytes line code → HasFault (bytes ++ more) line code }
{}

/// Two modules with the same text are equal.
pub fn one_text()
    ensures { (m n : Module) → IsModule m → IsModule n → text m ≡ text n → m ≡ n }
{}

/// Lines, words and numbers are found again as they were spelled: cutting a text and joining its parts are inverse.
pub fn texts_round_trip()
    ensures { TextsRoundTrip }
{}
