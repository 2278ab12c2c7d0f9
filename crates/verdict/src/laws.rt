ghost use Rattle.std.specs.Prelude.{◌≡◌, ◌↔◌, ℕ, List};
ghost use Rattle.circuit_spec.specs.Network.{Topology};
ghost use Rattle.line_text.specs.Lines.{text_of};
ghost use Rattle.answer_spec.specs.declared.answer.Answer.{Answer};
ghost use Rattle.answer_spec.specs.Certificate.{Certificate};
ghost use Rattle.answer_spec.specs.WellFormed.{IsWellFormed};
ghost use Rattle.answer_text.specs.Spelling.{lines_of};
ghost use Rattle.verdict.specs.declared.rules.Rule.{Rule};
ghost use Rattle.verdict.specs.declared.rules.Rule.TheVariants as rule;
ghost use Rattle.verdict.specs.declared.verdicts.Verdict.{Verdict};
ghost use Rattle.verdict.specs.Faults.{Fails, IsFirstFault, IsFirstFaultFrom};
ghost use Rattle.verdict.specs.Rules.{PassWithin, Passes};
ghost use Rattle.verdict.specs.Verdicts.{IsVerdict};

use answer_text::texts_spell_one_answer;

/// An answer has a certificate exactly where all rules pass.
pub fn rules_make_certificates()
    ensures { (T : Topology) (a : Answer) → ((r : Rule) → Passes T a r) ↔ Certificate T a }
{}

/// A rule that fails at a line does not pass.
pub fn failing_rules_do_not_pass()
    ensures { (T : Topology) (a : Answer) (r : Rule) (line : ℕ) → Fails T a r line → ¬ Passes T a r }
{}

/// An answer with a first fault has no certificate.
pub fn faulty_answers_have_no_certificate()
    ensures { (T : Topology) (a : Answer) (r : Rule) (line : ℕ) → IsFirstFault T a r line → ¬ Certificate T a }
{}

/// An answer has one first fault at most.
pub fn fault_is_one()
    ensures { (T : Topology) (a : Answer) (r s : Rule) (m n : ℕ) → IsFirstFault T a r m → IsFirstFault T a s n → (r ≡ s) × (m ≡ n) }
{}

/// Where the rules on the request, the hops, the flags and the rules of devices pass, the first fault of the rules on potentials is the
/// first fault; and where these pass too, there is a certificate.
pub fn parts_make_the_whole()
    ensures faults { (T : Topology) (a : Answer) (r : Rule) (line : ℕ) → PassWithin T a rule.Ends rule.Ruled → IsFirstFaultFrom rule.Placed T a r line → IsFirstFault T a r line }
    ensures certificates { (T : Topology) (a : Answer) → PassWithin T a rule.Ends rule.Ruled → PassWithin T a rule.Placed rule.Agrees → Certificate T a }
{}

/// A text has one verdict at most.
pub fn verdict_is_one()
    ensures { (T : Topology) (bytes : List ℕ) (x y : Verdict) → IsVerdict T bytes x → IsVerdict T bytes y → x ≡ y }
{
    texts_spell_one_answer();
}

/// The spelling of a certificate is valid.
pub fn accepted_documents_are_valid()
    ensures { (T : Topology) (a : Answer) → IsWellFormed a → Certificate T a → IsVerdict T (text_of (lines_of a)) (Verdict.Valid a.outcome) }
{}
