// The reply to `drill`.
ghost use Rattle.std.specs.Prelude.{◌≡◌, ◌≤◌, ◌<◌, ◌^◌, ◌≢◌, IfOk, length};
ghost use Rattle.std.specs.List.{concat};
ghost use Rattle.circuit_spec.specs.Faults.{IsAccepted, IsSound};
ghost use Rattle.circuit_spec.specs.Network.{elements_of};
ghost use Rattle.answer_spec.specs.WellFormed.{IsWellFormed};
ghost use Rattle.answer_spec.specs.Certificate.{Certificate};
ghost use Rattle.answer_spec.specs.Exact.{IsExactAnswer};
ghost use Rattle.replies.specs.Status.{status_of};
ghost use Rattle.replies.specs.Through.{IsText};
ghost use Rattle.drill_command.specs.Drilling.{IsDrilled, IsReady, IsSolved, IsSummary};
ghost use Rattle.drill_command.specs.Lines.{replay_line, summary, told_line};

use crate::lines::{
    make_drill_line, make_outcome_line, make_replay_line, make_size_line, make_valid_line,
};
use answer_spec::Answer;
use cert_check::verify;
use circuit_spec::{MergeFault, Request};
use finder_core::{SolveFault, solve};
use ml_base::NoMemory;
use nml_elements::DomainList;
use nml_inventory::{Inventory, merge};
use replies::{Page, Reply, Texts, status_of};
use rule_replay::{Replayed, replay_answer};
use std::alloc::Global;
use topo_gen::{Generated, generate};
use verdict::CheckFault;

/// The inventory of an accepted topology that knows the request.
fn inventory_of(
    alloc: Global,
    domains: DomainList,
    request: &Request,
) -> Result<Inventory, NoMemory>
    requires few { length (elements_of domains) < 2 ^ 32 }
    requires accepted { IsAccepted domains }
    requires ready { IsReady domains request.now }
    ensures same { IfOk result (λ inventory. inventory ≡ domains) }
    ensures ready { IfOk result (λ inventory. IsReady inventory request.now) }
{
    match merge(alloc, domains) {
        Ok(inventory) => Ok(inventory),
        Err(MergeFault::NoMemory) => Err(NoMemory),
        Err(_) => unreachable!(),
    }
}

/// A known request is refused for want of memory alone.
fn want_of_memory(fault: &SolveFault) -> NoMemory
    requires { fault.now ≡ SolveFault.NoMemory }
{
    match fault {
        SolveFault::NoMemory => NoMemory,
        SolveFault::UnknownPort { .. } | SolveFault::LabelNotHere { .. } => unreachable!(),
    }
}

/// The answer to a request that is known.
fn solved(alloc: Global, inventory: &Inventory, request: &Request) -> Result<Answer, NoMemory>
    requires { IsReady inventory.now request.now }
    ensures solved { IfOk result (IsSolved inventory.now request.now) }
    ensures formed { IfOk result IsWellFormed }
{
    match solve(alloc, inventory, request) {
        Ok(answer) => Ok(answer),
        Err(fault) => Err(want_of_memory(&fault)),
    }
}

/// Checks an answer that has a certificate.
fn checked(alloc: Global, inventory: &Inventory, answer: &Answer) -> Result<(), NoMemory>
    requires sound { IsSound inventory.now }
    requires formed { IsWellFormed answer.now }
    requires certified { Certificate inventory.now answer.now }
{
    match verify(alloc, inventory, answer) {
        Ok(_) => Ok(()),
        Err(CheckFault::NoMemory) => Err(NoMemory),
        Err(CheckFault::NotValid { .. }) => unreachable!(),
    }
}

/// The answer to a request that is known, checked.
fn answered(alloc: Global, inventory: &Inventory, request: &Request) -> Result<Answer, NoMemory>
    requires { IsReady inventory.now request.now }
    ensures solved { IfOk result (IsSolved inventory.now request.now) }
    ensures formed { IfOk result IsWellFormed }
{
    let answer = solved(alloc, inventory, request)?;
    checked(alloc, inventory, &answer)?;
    Ok(answer)
}

/// What a replay tells of the rules of an exact answer.
fn replayed(alloc: Global, inventory: &Inventory, answer: &Answer) -> Result<Replayed, NoMemory>
    requires sound { IsSound inventory.now }
    requires formed { IsWellFormed answer.now }
    requires exact { IsExactAnswer inventory.now answer.now }
    ensures { IfOk result (λ told. told_line told ≡ replay_line answer.now.outcome answer.now) }
{
    replay_answer(alloc, inventory, answer)
}

/// The lines that tell an answer, of whose rules this is told.
fn summary_of(
    alloc: Global,
    levels: u32,
    answer: &Answer,
    told: Replayed,
) -> Result<Texts, NoMemory>
    requires { told_line told ≡ replay_line answer.now.outcome answer.now }
    ensures { IfOk result (λ lines. lines ≡ summary levels answer.now) }
{
    let mut lines = Texts::new(alloc);
    lines.push(make_drill_line(alloc, levels)?)?;
    lines.push(make_size_line(alloc, levels)?)?;
    lines.push(make_outcome_line(alloc, answer.outcome)?)?;
    lines.push(make_valid_line(alloc)?)?;
    lines.push(make_replay_line(alloc, told)?)?;
    Ok(lines)
}

/// The reply that tells an answer.
fn told(
    alloc: Global,
    levels: u32,
    inventory: &Inventory,
    answer: &Answer,
) -> Result<Reply, NoMemory>
    requires sound { IsSound inventory.now }
    requires formed { IsWellFormed answer.now }
    requires exact { IsExactAnswer inventory.now answer.now }
    ensures { IfOk result (IsText (status_of answer.now.outcome) (concat (summary levels answer.now))) }
{
    let told = replayed(alloc, inventory, answer)?;
    let lines = summary_of(alloc, levels, answer, told)?;
    Ok(Reply {
        status: status_of(&answer.outcome),
        text: Page::of_lines(lines),
    })
}

fn drill_in(
    alloc: Global,
    levels: u32,
    inventory: &Inventory,
    request: &Request,
) -> Result<Reply, NoMemory>
    requires { IsReady inventory.now request.now }
    ensures { IfOk result (IsSummary levels inventory.now request.now) }
{
    let answer = answered(alloc, inventory, request)?;
    let reply = told(alloc, levels, inventory, &answer)?;
    Ok(reply)
}

fn drill_over(
    alloc: Global,
    levels: u32,
    domains: DomainList,
    request: &Request,
) -> Result<Reply, NoMemory>
    requires few { length (elements_of domains) < 2 ^ 32 }
    requires accepted { IsAccepted domains }
    requires ready { IsReady domains request.now }
    ensures { IfOk result (IsSummary levels domains request.now) }
{
    let inventory = inventory_of(alloc, domains, request)?;
    let reply = drill_in(alloc, levels, &inventory, request)?;
    Ok(reply)
}

/// The reply to `drill` with these many levels: the network is generated, the request through its highest level answered, the
/// answer checked, and its rules replayed. It has status 0, 7 or 8, as the walk is found, costs too much or is too long: by `drilled_replies_tell_the_outcome`
/// there always is one.
///
/// Errors: `NoMemory` where memory ran out.
pub fn drill(alloc: Global, levels: u32) -> Result<Reply, NoMemory>
    requires some { 1 ≤ levels }
    requires few { levels ≤ 4096 }
    ensures { IfOk result (IsDrilled levels) }
{
    let made = generate(alloc, levels)?;
    let Generated { domains, request } = made;
    let reply = drill_over(alloc, levels, domains, &request)?;
    Ok(reply)
}
