ghost use Rattle.std.specs.Prelude.{◌≡◌, ◌≢◌, ◌≤◌, ℕ};
ghost use Rattle.circuit_spec.specs.declared.hops.Outcome.{Outcome};
ghost use Rattle.circuit_spec.specs.Steps.{IsOutcome};
ghost use Rattle.replies.specs.declared.reply.Reply.{Reply};
ghost use Rattle.replies.specs.declared.reply.Status.TheVariants as statuses;
ghost use Rattle.replies.specs.Status.{status_of};
ghost use Rattle.topo_gen.specs.Tunnels.{generated_domains, generated_request};
ghost use Rattle.drill_command.specs.Drilling.{IsDrilled};

/// The status of a reply is that of the outcome of the generated request, so there is one; and it never says that there is no walk.
pub fn drilled_replies_tell_the_outcome()
    ensures outcome { (levels : ℕ) (reply : Reply) (outcome : Outcome) → IsDrilled levels reply → IsOutcome (generated_domains levels) (generated_request levels) outcome → reply.status ≡ status_of outcome }
    ensures one { (levels : ℕ) (a b : Reply) → IsDrilled levels a → IsDrilled levels b → a.status ≡ b.status }
    ensures walk { (levels : ℕ) (reply : Reply) → levels ≤ 4096 → IsDrilled levels reply → reply.status ≢ statuses.NoWalk }
{}
