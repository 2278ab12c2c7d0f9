ghost use Rattle.std.specs.Prelude.{◌≡◌, ◌↔◌, ℕ, List, length, true};
ghost use Rattle.circuit_spec.specs.declared.hops.Hop.{Hop};
ghost use Rattle.circuit_spec.specs.Network.{Topology};
ghost use Rattle.circuit_spec.specs.Steps.{Walk};
ghost use Rattle.line_text.specs.Lines.{text_of};
ghost use Rattle.answer_spec.specs.declared.answer.Answer.{Answer};
ghost use Rattle.answer_spec.specs.Exact.{IsExactAnswer};
ghost use Rattle.answer_spec.specs.WellFormed.{IsWellFormed};
ghost use Rattle.answer_text.specs.Spelling.{lines_of};
ghost use Rattle.rule_replay.specs.declared.replayed.Replayed.{Replayed as WhatIsTold};
ghost use Rattle.rule_replay.specs.declared.replayed.Replayed.TheVariants.{Carried};
ghost use Rattle.rule_replay.specs.Laws.{Carries, IsForwardedToo, are_unset};
ghost use Rattle.rule_replay.specs.Replaying.{AreByNumber, IsAsked, IsFound, IsReplayed};

/// One thing is told of a document.
pub fn replayed_is_one()
    ensures { (T : Topology) (bytes : List ℕ) (x y : WhatIsTold) → IsReplayed T bytes x → IsReplayed T bytes y → x ≡ y }
{}

/// The rules of a document whose answer is found, to a known request, carry exactly where they are numbered from 1, each number once, and
/// their hops by number are a walk of the request.
pub fn walks_are_carried()
    ensures { (T : Topology) (bytes : List ℕ) (a : Answer) (shown : WhatIsTold) → IsAsked T bytes a → IsReplayed T bytes shown → Carries shown ↔ ((hops : List Hop) × AreByNumber a.rules hops × Walk T a.request hops) }
{}

/// What is carried in any order is forwarded too: by the rules in whatever order, over the same hops, from the walk's first place to its
/// last.
pub fn carried_rules_forward()
    ensures { (T : Topology) (bytes : List ℕ) (n : ℕ) → IsReplayed T bytes (Carried n true) → IsForwardedToo T bytes }
{}

/// The rules of the answer of a search carry over all its hops, where it is found; in any order exactly where no flag is set.
pub fn exact_answers_are_carried()
    ensures { (T : Topology) (a : Answer) → IsExactAnswer T a → IsWellFormed a → IsFound a.outcome → IsReplayed T (text_of (lines_of a)) (Carried (length a.hops) (are_unset a.flags)) }
{}
