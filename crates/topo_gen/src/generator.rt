ghost use Rattle.std.specs.Prelude.{◌≡◌, ◌≤◌, ◌<◌, ◌^◌, ℕ, IfOk, length};
ghost use Rattle.std.specs.List.{AllByRecursion};
ghost use Rattle.nml_elements.specs.declared.elements.Domain.{Domain};
ghost use Rattle.nml_elements.specs.FileWriting.{AreCounted};
ghost use Rattle.circuit_spec.specs.Network.{elements_of};
ghost use Rattle.circuit_spec.specs.Faults.{IsAccepted, IsKnown};
ghost use Rattle.topo_gen.specs.Tunnels.{generated_domains, generated_request};

use crate::elements::named;
use crate::levels::{ground, tunnel};
use circuit_spec::Request;
use ml_base::{Items, NoMemory, Wish};
use nml_elements::DomainList;
use std::alloc::Global;

/// A network and a request to it.
#[derive(Debug, Drop)]
pub struct Generated {
    pub domains: DomainList,
    pub request: Request,
}

fn domains_of(alloc: Global, levels: u32) -> Result<DomainList, NoMemory>
    requires { levels ≤ 4096 }
    ensures { IfOk result (λ domains. domains ≡ generated_domains levels) }
{
    let mut domains = Items::new(alloc);
    domains.push(ground(alloc, levels)?)?;
    for level in 0..levels {
        domains.push(tunnel(alloc, levels, level + 1)?)?;
    }
    Ok(domains)
}

fn request_of(alloc: Global, levels: u32) -> Result<Request, NoMemory>
    ensures { IfOk result (λ request. request ≡ generated_request levels) }
{
    Ok(Request {
        from: named(alloc, "x", levels)?,
        from_wish: Wish::Any,
        to: named(alloc, "y", levels)?,
        to_wish: Wish::Any,
    })
}

/// The network of nested tunnels with these many levels above level 0, and the request through the highest of them. The network is
/// accepted and knows the request, which has a walk by `generated_requests_have_walks`; `generated_counts` says how large it is. Each of
/// its domains is read back from what `write_domain` writes of it.
///
/// Errors: `NoMemory` where memory ran out.
pub fn generate(alloc: Global, levels: u32) -> Result<Generated, NoMemory>
    requires some { 1 ≤ levels }
    requires few { levels ≤ 4096 }
    ensures domains { IfOk result (λ made. made.domains ≡ generated_domains levels) }
    ensures request { IfOk result (λ made. made.request ≡ generated_request levels) }
    ensures accepted { IfOk result (λ made. IsAccepted made.domains) }
    ensures known { IfOk result (λ made. IsKnown made.domains made.request) }
    ensures few { IfOk result (λ made. length (elements_of made.domains) < 2 ^ 32) }
    ensures numbered { IfOk result (λ made. AllByRecursion (λ (domain : Domain). AreCounted 1 domain.elements × (length domain.elements ≤ 16777216)) made.domains) }
{
    Ok(Generated {
        domains: domains_of(alloc, levels)?,
        request: request_of(alloc, levels)?,
    })
}
