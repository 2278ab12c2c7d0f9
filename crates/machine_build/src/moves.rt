ghost use Rattle.std.specs.Prelude.{◌≡◌, ◌++◌, ◌∷◌, [], OnErr, OnOk, map};
ghost use Rattle.machine_build.specs.Ways.{site_of, step_of};

use crate::built::Site;
use crate::ways::Move;
use adapt_machine::{MachineKind, MachineStep};
use ml_base::NoMemory;
use std::alloc::Global;
use std::marker::Model;

/// A list of moves, kept as the steps and the sites that they become.
#[derive(Drop)]
pub struct Moves {
    steps: Vec<MachineStep>,
    sites: Vec<Site>,
}

impl Model for Moves {
    ghost use Rattle.std.specs.Prelude.{◌≡◌, List, length};
    ghost use Rattle.machine_build.specs.declared.ways.Move.{Move};
    ghost use Rattle.machine_build.specs.Ways.{moves_by};

    ghost Value = { List Move };

    ghost view = { λ m. moves_by m.steps.items m.sites.items };

    ghost invariant = { λ m. length m.sites.items ≡ length m.steps.items };
}

fn step_of(added: Move) -> MachineStep
    ensures { result ≡ step_of added }
{
    let (from, to) = match added.effect.kind {
        MachineKind::Flat | MachineKind::Push => (added.near.state, added.far.state),
        MachineKind::Pop => (added.far.state, added.near.state),
    };
    MachineStep {
        kind: added.effect.kind,
        from,
        to,
        frame: added.effect.frame,
        cost: added.effect.cost,
    }
}

fn site_of(added: Move) -> Site
    ensures { result ≡ site_of added }
{
    let (from, to) = match added.effect.kind {
        MachineKind::Flat | MachineKind::Push => (added.near.port, added.far.port),
        MachineKind::Pop => (added.far.port, added.near.port),
    };
    Site {
        element: added.element,
        from,
        to,
    }
}

impl Moves {
    /// No moves.
    pub fn new(alloc: Global) -> Moves
        ensures { result ≡ [] }
    {
        Moves {
            steps: Vec::new(alloc),
            sites: Vec::new(alloc),
        }
    }

    /// Puts a move at the end. A refusal changes nothing.
    pub fn push(&mut self, added: Move) -> Result<(), NoMemory>
        ensures ok { OnOk result (self.new ≡ self.old ++ added ∷ []) }
        ensures err { OnErr result (self.new ≡ self.old) }
    {
        let Ok(()) = self.steps.push(step_of(added)) else {
            return Err(NoMemory);
        };
        let Ok(()) = self.sites.push(site_of(added)) else {
            self.steps.pop();
            return Err(NoMemory);
        };
        Ok(())
    }

    /// The steps and the sites of the moves.
    pub fn into_parts(self) -> (Vec<MachineStep>, Vec<Site>)
        ensures steps { result.0.items ≡ map step_of self }
        ensures sites { result.1.items ≡ map site_of self }
    {
        (self.steps, self.sites)
    }
}
