//! The first fault among lines.
//!
//! Three readers answer the first line with a fault. What that is is said once, as a function and as a relation.

ghost use Rattle.std.specs.Prelude.{◌≡◌, ◌↔◌, List, [], ℕ, Option, Some, None};
ghost use Rattle.text_lines.specs.Reading.{first_fault, HasFirstFault, AreFaultless};

/// The function that definitions cite gives the fault of a line that has one, where no line before it has one; and none
/// exactly where no line has a fault.
pub fn first_faults_are_found<F>()
    ensures fault { (fault_at : List (List ℕ) → List ℕ → Option F) (all : List (List ℕ)) (fault : F) →
        (first_fault fault_at [] all ≡ Some fault) ↔ HasFirstFault fault_at all fault }
    ensures none { (fault_at : List (List ℕ) → List ℕ → Option F) (all : List (List ℕ)) →
        (first_fault fault_at [] all ≡ None) ↔ AreFaultless fault_at all }
{}
