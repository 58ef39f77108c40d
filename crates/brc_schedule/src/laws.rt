//! Laws of all schedules. A function here does nothing: a call of it brings its law into a proof.

ghost use Rattle.std.specs.Prelude.{◌≡◌, ◌≢◌, ◌⊎◌, ℕ, ◌≤◌, List, ◌++◌, length};
ghost use Rattle.brc_lang.specs.declared.fault.FaultCode.{FaultCode};
ghost use Rattle.brc_lang.specs.declared.fault.FaultCode.TheVariants.{CutOff, NoMemory};
ghost use Rattle.brc_schedule.specs.declared.schedule.Schedule.{Schedule};
ghost use Rattle.brc_schedule.specs.Text.{Spells, first_line};
ghost use Rattle.brc_schedule.specs.Fault.{HasFault};
ghost use Rattle.brc_schedule.specs.EachText.{SpellsASchedule, HasAFault};

use brc_lang::texts_round_trip;

/// Each text spells at most one schedule, or has at most one fault, and never both.
pub fn one_schedule()
    ensures one_schedule { (bytes : List ℕ) (s t : Schedule) → Spells bytes s → Spells bytes t → s ≡ t }
    ensures one_fault { (bytes : List ℕ) (k l : ℕ) (c d : FaultCode) → HasFault bytes k c → HasFault bytes l d
        → (k ≡ l) × (c ≡ d) }
    ensures apart { (bytes : List ℕ) (s : Schedule) (line : ℕ) (code : FaultCode) → Spells bytes s
        → HasFault bytes line code → ⊥ }
{
    texts_round_trip();
}

/// Each text spells a schedule or has a fault. A text's own fault is never `NoMemory`.
pub fn each_text_reads()
    ensures a_schedule_or_a_fault { (bytes : List ℕ) → SpellsASchedule bytes ⊎ HasAFault bytes }
    ensures own_fault { (bytes : List ℕ) (line : ℕ) (code : FaultCode) → HasFault bytes line code → code ≢ NoMemory }
{
    texts_round_trip();
}

/// A fault other than `CutOff` stays, however the text goes on behind at least as many bytes as the first line has.
pub fn fault_stays()
    ensures { (bytes more : List ℕ) (line : ℕ) (code : FaultCode) → length first_line ≤ length bytes → code ≢ CutOff
        → HasFault bytes line code → HasFault (bytes ++ more) line code }
{
    texts_round_trip();
}
