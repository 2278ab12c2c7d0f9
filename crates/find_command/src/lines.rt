// Lines on requests, each made in a fixed buffer and then kept.
ghost use Rattle.std.specs.Prelude.{◌≡◌, IfOk};
ghost use Rattle.find_command.specs.Lines.{unknown_port_line, label_not_here_line};

use io_edges::Line;
use ml_base::{Id, NoMemory};
use replies::Text;
use std::alloc::Global;

#[tactic(auto, unfolding(crate::specs::Lines::unknown_port_line))]
pub(crate) fn make_unknown_port_line(alloc: Global, id: &Id) -> Result<Text, NoMemory>
    ensures { IfOk result (λ line. line ≡ unknown_port_line id.now) }
{
    let mut line = Line::new();
    line.push(b"request unknown-port ");
    line.push(id.text().as_bytes());
    line.push(b"\n");
    Text::copy(alloc, line.bytes())
}

#[tactic(auto, unfolding(crate::specs::Lines::label_not_here_line))]
pub(crate) fn make_label_not_here_line(alloc: Global, id: &Id, label: u32) -> Result<Text, NoMemory>
    ensures { IfOk result (λ line. line ≡ label_not_here_line id.now label) }
{
    let mut line = Line::new();
    line.push(b"request label-not-here ");
    line.push(id.text().as_bytes());
    line.push(b" ");
    line.push_number(label as u64);
    line.push(b"\n");
    Text::copy(alloc, line.bytes())
}
