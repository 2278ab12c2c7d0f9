ghost use Rattle.std.specs.Prelude.{◌≡◌, ◌+◌, ◌*◌, ◌^◌, ◌<◌};
ghost use Rattle.marked_machine.specs.Product.{lifted, place_of, HasRoom};
ghost use Rattle.adapt_machine.specs.Machine.{IsStepWithin};

use crate::marks::Marks;
use adapt_machine::{Machine, MachineStep};
use ml_base::{FrameNo, StateNo};

/// The number of a state or a frame and a mark, of this many marks.
pub fn place_of(count: u64, base: u64, mark: u64) -> u64
    requires { place_of count base mark < 2 ^ 64 }
    ensures { result ≡ place_of count base mark }
{
    base * count + mark
}

/// The step of the product from one mark to another, with the frame.
pub fn lift(
    machine: &Machine,
    marks: &Marks,
    step: MachineStep,
    frame: FrameNo,
    mark: u64,
    after: u64,
) -> MachineStep
    requires within { IsStepWithin machine.now.states machine.now.frames step }
    requires room { HasRoom machine.now marks.now }
    requires mark { mark < marks.now.count }
    requires after { after < marks.now.count }
    ensures { result ≡ lifted marks.now step frame mark after }
{
    MachineStep {
        kind: step.kind,
        from: StateNo(place_of(marks.count, step.from.0, mark)),
        to: StateNo(place_of(marks.count, step.to.0, after)),
        frame,
        cost: step.cost,
    }
}
