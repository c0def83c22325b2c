//! The reader returns the first fault.

ghost use Rattle.std.specs.Prelude.{◌≡◌, ◌↔◌, ℕ, List, Err};
ghost use Rattle.case_forms.specs.declared.version.Version.{Version};
ghost use Rattle.line_fields.specs.declared.fault.TextFault.{TextFault};
ghost use Rattle.witness.specs.StepForms.{IsStepFault, IsWitnessFault};
ghost use Rattle.witness.specs.Steps.{step_of};
ghost use Rattle.witness.specs.WitnessText.{witness_for};

/// Reading a step gives this fault if and only if it is its first one: that of the line as a whole, or else that of the
/// first field that doesn't fit the form of a step.
pub fn step_faults()
    ensures { (v : Version) (number : ℕ) (raw : List ℕ) (e : TextFault) → (step_of v number raw ≡ Err e)
        ↔ IsStepFault v number raw e }
{}

/// Reading a text as a witness of this version gives this fault if and only if it is the text's first one. That is the
/// fault of its first line, which is missing, has a fault as a whole or names another version. Or the first line is
/// right, the lines before spell steps, and it is the first fault of the next one.
pub fn witness_faults()
    ensures { (v : Version) (text : List ℕ) (e : TextFault) → (witness_for v text ≡ Err e) ↔ IsWitnessFault v text e }
{}
