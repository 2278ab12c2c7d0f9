ghost use Rattle.std.specs.Prelude.{◌≡◌, ◌∷◌, ◌++◌, [], IfOk};
ghost use Rattle.deriv_arena.specs.Derivation.{unfolding_of};
ghost use Rattle.route_unfold.specs.Tasks.{Does};

use crate::iterator::Unfold;
use deriv_arena::{Deriv, DerivForm};
use ml_base::{NoMemory, StepNo};
use std::alloc::Global;

/// What is left to do.
#[derive(Clone, Copy)]
enum Task<'a> {
    Walk(&'a Deriv<'a>),
    Step(StepNo),
}

fn add<'a>(tasks: &mut Vec<Task<'a>>, task: Task<'a>) -> Result<(), NoMemory>
    ensures { IfOk result (λ _. tasks.new.items ≡ tasks.old.items ++ task.entry ∷ []) }
{
    if tasks.push(task).is_err() {
        return Err(NoMemory);
    }
    Ok(())
}

/// Does a task: its last step comes out, and the rest of it becomes tasks.
fn work<'a>(tasks: &mut Vec<Task<'a>>, out: &mut Unfold, task: Task<'a>) -> Result<(), NoMemory>
    ensures { IfOk result (λ _. Does task.entry tasks.old.items out.old tasks.new.items out.new) }
{
    match task {
        Task::Step(step) => {
            out.put_first(step)?;
            Ok(())
        }
        Task::Walk(deriv) => walk(tasks, out, deriv),
    }
}

fn walk<'a>(
    tasks: &mut Vec<Task<'a>>,
    out: &mut Unfold,
    deriv: &'a Deriv<'a>,
) -> Result<(), NoMemory>
    ensures { IfOk result (λ _. Does (Task.Walk deriv.entry) tasks.old.items out.old tasks.new.items out.new) }
{
    match deriv.form() {
        DerivForm::Root => Ok(()),
        DerivForm::Flat { prev, step } => {
            add(tasks, Task::Walk(prev))?;
            out.put_first(step)?;
            Ok(())
        }
        DerivForm::Nest {
            prev,
            push,
            inner,
            pop,
        } => {
            add(tasks, Task::Walk(prev))?;
            add(tasks, Task::Step(push))?;
            add(tasks, Task::Walk(inner))?;
            out.put_first(pop)?;
            Ok(())
        }
    }
}

/// Puts the steps of the derivation before those that are out, the last one first.
pub(crate) fn unfold_into<'a>(
    alloc: Global,
    out: &mut Unfold,
    deriv: &'a Deriv<'a>,
) -> Result<(), NoMemory>
    ensures { IfOk result (λ _. out.new ≡ unfolding_of deriv.now ++ out.old) }
{
    let mut tasks = Vec::new(alloc);
    add(&mut tasks, Task::Walk(deriv))?;
    while let Some(task) = tasks.pop() {
        work(&mut tasks, out, task)?;
    }
    Ok(())
}
