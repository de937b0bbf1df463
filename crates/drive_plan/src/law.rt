//! What is true of all plans. This does nothing: what it ensures holds wherever it is called.
ghost use Rattle.std.specs.Prelude.{◌≡◌, ◌⊎◌, ℕ, List, Ok, Err};
ghost use Rattle.drive_plan.specs.Format.{plan_of};
ghost use Rattle.drive_plan.specs.Plans.{Planned};
ghost use Rattle.drive_plan.specs.Sections.{IsTextOf, IsMisfit, EndsEarly};
ghost use Rattle.drive_plan.specs.declared.reader.PlanFault.TheVariants.{BadPlan};

/// A text is a plan exactly where its lines are the plan's sections, in order, and it has an arena. Of any other text the line is
/// told that is the first that does not fit; where each fits, and the text ends too early, the line after the last LF.
pub fn plans_are_their_sections()
    ensures found { (text : List ℕ) (p : Planned) → plan_of text ≡ Ok p → IsTextOf text p }
    ensures read { (text : List ℕ) (p : Planned) → IsTextOf text p → plan_of text ≡ Ok p }
    ensures told { (text : List ℕ) (number : ℕ) → plan_of text ≡ Err (BadPlan number) → IsMisfit text number ⊎ EndsEarly text number }
{}
