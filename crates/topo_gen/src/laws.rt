ghost use Rattle.std.specs.Prelude.{◌≡◌, ◌≤◌, ◌+◌, ◌*◌, ℕ, List};
ghost use Rattle.circuit_spec.specs.declared.hops.Hop.{Hop};
ghost use Rattle.circuit_spec.specs.Steps.{Walk, weight_of};
ghost use Rattle.circuit_spec.specs.Faults.{IsAccepted, IsKnown};
ghost use Rattle.topo_gen.specs.Counts.{HasCounts};
ghost use Rattle.topo_gen.specs.Tunnels.{generated_domains, generated_request, generated_weight};

/// Every generated network is accepted, and knows its request.
pub fn generated_networks_are_accepted()
    ensures accepted { (levels : ℕ) → levels ≤ 4096 → IsAccepted (generated_domains levels) }
    ensures known { (levels : ℕ) → levels ≤ 4096 → IsKnown (generated_domains levels) (generated_request levels) }
{}

/// Every generated request has a walk of the generated weight.
pub fn generated_requests_have_walks()
    ensures { (levels : ℕ) → levels ≤ 4096 → (hops : List Hop) × Walk (generated_domains levels) (generated_request levels) hops × (weight_of (generated_domains levels) hops ≡ generated_weight levels) }
{}

/// How large a generated network is.
pub fn generated_counts()
    ensures { (levels : ℕ) → HasCounts (generated_domains levels) (levels + 1) (2 + 3 * levels) 8 (4 * levels) }
{}
