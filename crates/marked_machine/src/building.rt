ghost use Rattle.std.specs.Prelude.{◌≡◌, ◌<◌, ◌*◌, ℕ, Some, IfOk, slice_get, length, map};
ghost use Rattle.std.specs.List.{All};
ghost use Rattle.adapt_machine.specs.Machine.{IsStepWithin};
ghost use Rattle.adapt_machine.specs.declared.MachineKind.TheVariants.{Push, Pop};
ghost use Rattle.marked_machine.specs.Marks.{put_mark};
ghost use Rattle.marked_machine.specs.Product.{marked_steps, of_kind, pop_at, steps_at, steps_of, with_next, with_put, GoesOn, HasRoom};
ghost use Rattle.marked_machine.specs.Sites.{IsSite};

use crate::marks::Marks;
use crate::numbers::{lift, place_of};
use crate::steps::MarkedSteps;
use adapt_machine::{Machine, MachineKind, MachineStep};
use ml_base::{FrameNo, NoMemory, StepNo};
use std::alloc::Global;

/// A step of the machine, at a mark.
#[derive(Clone, Copy)]
pub struct Site {
    pub number: StepNo,
    pub step: MachineStep,
    pub mark: u64,
}

/// Adds the step to the mark behind it, if there is one.
fn add_next(
    machine: &Machine,
    marks: &Marks,
    steps: &mut MarkedSteps,
    site: Site,
    frame: FrameNo,
    next: Option<u64>,
) -> Result<(), NoMemory>
    requires room { HasRoom machine.now marks.now }
    requires site { IsSite machine.now marks.now site }
    requires next { (a : ℕ) → next ≡ Some a → a < marks.now.count }
    ensures { IfOk result (λ _. GoesOn steps.old (with_next marks.now site.number site.step site.mark frame next) steps.new) }
{
    let Some(after) = next else {
        return Ok(());
    };
    let step = lift(machine, marks, site.step, frame, site.mark, after);
    steps.push(step, site.number)?;
    Ok(())
}

/// Adds a push.
fn add_push(
    machine: &Machine,
    marks: &Marks,
    steps: &mut MarkedSteps,
    site: Site,
) -> Result<(), NoMemory>
    requires room { HasRoom machine.now marks.now }
    requires site { IsSite machine.now marks.now site }
    requires push { site.step.kind ≡ Push }
    ensures { IfOk result (λ _. GoesOn steps.old
        (with_put marks.now site.number site.step site.mark (put_mark marks.now site.mark)) steps.new) }
{
    let Some(put) = marks.put(site.mark) else {
        return Ok(());
    };
    let frame = FrameNo(place_of(marks.frame_count, site.step.frame.0, put));
    let next = marks.next(site.number, site.mark, 0);
    add_next(machine, marks, steps, site, frame, next)?;
    Ok(())
}

/// Adds a pop of a frame with the mark.
fn add_pop(
    machine: &Machine,
    marks: &Marks,
    steps: &mut MarkedSteps,
    site: Site,
    seen: u64,
) -> Result<(), NoMemory>
    requires room { HasRoom machine.now marks.now }
    requires site { IsSite machine.now marks.now site }
    requires pop { site.step.kind ≡ Pop }
    requires seen { seen < marks.now.frame_count }
    ensures { IfOk result (λ _. GoesOn steps.old (pop_at marks.now site.number site.step site.mark seen) steps.new) }
{
    let frame = FrameNo(place_of(marks.frame_count, site.step.frame.0, seen));
    let next = marks.next(site.number, site.mark, seen);
    add_next(machine, marks, steps, site, frame, next)?;
    Ok(())
}

/// Adds a pop, for each mark of its frame.
fn add_pops(
    machine: &Machine,
    marks: &Marks,
    steps: &mut MarkedSteps,
    site: Site,
) -> Result<(), NoMemory>
    requires room { HasRoom machine.now marks.now }
    requires site { IsSite machine.now marks.now site }
    requires pop { site.step.kind ≡ Pop }
    ensures { IfOk result (λ _. GoesOn steps.old (of_kind Pop marks.now site.number site.step site.mark) steps.new) }
{
    for seen in 0..marks.frame_count {
        add_pop(machine, marks, steps, site, seen)?;
    }
    Ok(())
}

/// Adds what becomes of a step at a mark.
fn add_site(
    machine: &Machine,
    marks: &Marks,
    steps: &mut MarkedSteps,
    site: Site,
) -> Result<(), NoMemory>
    requires room { HasRoom machine.now marks.now }
    requires site { IsSite machine.now marks.now site }
    ensures { IfOk result (λ _. GoesOn steps.old (steps_at marks.now site.number site.step site.mark) steps.new) }
{
    match site.step.kind {
        MachineKind::Flat => {
            let next = marks.next(site.number, site.mark, 0);
            add_next(machine, marks, steps, site, FrameNo(0), next)?;
            Ok(())
        }
        MachineKind::Push => {
            add_push(machine, marks, steps, site)?;
            Ok(())
        }
        MachineKind::Pop => {
            add_pops(machine, marks, steps, site)?;
            Ok(())
        }
    }
}

/// Adds what becomes of a step, by mark.
fn add_step(
    machine: &Machine,
    marks: &Marks,
    steps: &mut MarkedSteps,
    number: StepNo,
) -> Result<(), NoMemory>
    requires room { HasRoom machine.now marks.now }
    requires number { number.0 < length machine.now.steps }
    ensures { IfOk result (λ _. GoesOn steps.old (steps_of marks.now number.0 (slice_get machine.now.steps number.0)) steps.new) }
{
    let step = machine.step(number);
    for mark in 0..marks.count {
        let site = Site { number, step, mark };
        add_site(machine, marks, steps, site)?;
    }
    Ok(())
}

/// The steps of the product of a machine with a rule.
pub fn make_steps(alloc: Global, machine: &Machine, marks: &Marks) -> Result<MarkedSteps, NoMemory>
    requires room { HasRoom machine.now marks.now }
    ensures steps { IfOk result (λ made. made.steps.items ≡ map (λ a. a.step) (marked_steps marks.now machine.now.steps)) }
    ensures bases { IfOk result (λ made. made.bases.items ≡ map (λ a. a.base) (marked_steps marks.now machine.now.steps)) }
    ensures within { IfOk result (λ made. All
        (IsStepWithin (machine.now.states * marks.now.count) (machine.now.frames * marks.now.frame_count)) made.steps.items) }
{
    let mut steps = MarkedSteps::new(alloc);
    for number in 0..machine.steps() {
        add_step(machine, marks, &mut steps, StepNo(number))?;
    }
    Ok(steps)
}
