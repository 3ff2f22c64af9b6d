//! What holds of the bytes of banks.
//!
//! Contracts cite a function that reads a bank; the law ties it to what the bytes of a bank are.

ghost use Rattle.std.specs.Prelude.{◌≡◌, ◌⊎◌, ◌↔◌, List, ℕ, Ok, Err};
ghost use Rattle.bank_journal.specs.Content.{Content};
ghost use Rattle.bank_journal.specs.Bank.{ReadsAs, HasFault};
ghost use Rattle.bank_journal.specs.Reading.{bank_of};

/// Any bytes have exactly one reading, or else exactly one first fault, and a function that definitions cite gives it.
pub fn banks_are_read()
    ensures reading { (bytes : List ℕ) (content : Content) → (bank_of bytes ≡ Ok content) ↔ ReadsAs bytes content }
    ensures fault { (bytes : List ℕ) (offset : ℕ) → (bank_of bytes ≡ Err offset) ↔ HasFault bytes offset }
    ensures either { (bytes : List ℕ) →
        ((content : Content) × ReadsAs bytes content) ⊎ ((offset : ℕ) × HasFault bytes offset) }
    ensures never_both { (bytes : List ℕ) (content : Content) (offset : ℕ) →
        ReadsAs bytes content → ¬ HasFault bytes offset }
    ensures one_reading { (bytes : List ℕ) (a b : Content) → ReadsAs bytes a → ReadsAs bytes b → a ≡ b }
    ensures one_fault { (bytes : List ℕ) (a b : ℕ) → HasFault bytes a → HasFault bytes b → a ≡ b }
{}
