// The lines on the faults of files and topologies.
ghost use Rattle.std.specs.Prelude.{◌≡◌, ◌≢◌, ◌≤◌, ◌++◌, length, IfOk};
ghost use Rattle.circuit_spec.specs.declared.faults.MergeFault.TheVariants as merging;
ghost use Rattle.circuit_spec.specs.MemberNames.{name_of};
ghost use Rattle.file_words.specs.Lines.{fault_end, fault_line, at_spot, duplicate_topology_line, duplicate_id_line, wrong_kind_line, merge_line, pair_line};

use circuit_spec::{Member, MergeFault, Spot};
use io_edges::Line;
use ml_base::{Id, NoMemory};
use nml_elements::ReadFault;
use replies::Text;
use std::alloc::Global;

fn push_fault_end(line: &mut Line, fault: &ReadFault)
    requires { length line.old ≤ 100 }
    ensures { line.new ≡ line.old ++ fault_end fault.now }
{
    match fault {
        ReadFault::Json => line.push(b"0 json\n"),
        ReadFault::Shape { element, rule } => {
            line.push_number(*element);
            line.push(b" shape ");
            line.push_number(*rule as u64);
            line.push(b"\n");
        }
        ReadFault::Label { element, at } => {
            line.push_number(*element);
            line.push(b" label ");
            line.push_number(*at);
            line.push(b"\n");
        }
        ReadFault::NoMemory => {}
    }
}

/// The line on a fault of the file with this number.
#[tactic(auto, unfolding(crate::specs::Lines::fault_line))]
pub(crate) fn make_fault_line(
    alloc: Global,
    number: u64,
    fault: &ReadFault,
) -> Result<Text, NoMemory>
    ensures { IfOk result (λ line. line ≡ fault_line number fault.now) }
{
    let mut line = Line::new();
    line.push(b"fault ");
    line.push_number(number);
    line.push(b" ");
    push_fault_end(&mut line, fault);
    Text::copy(alloc, line.bytes())
}

/// The beginning of a line on a fault at this place.
#[tactic(auto, unfolding(crate::specs::Lines::at_spot))]
fn line_at(spot: Spot) -> Line
    ensures begun { result ≡ at_spot spot }
    ensures short { length result ≤ 50 }
{
    let mut line = Line::new();
    line.push(b"fault ");
    line.push_number(spot.file);
    line.push(b" ");
    line.push_number(spot.element);
    line.push(b" ");
    line
}

#[tactic(auto, unfolding(circuit_spec::specs::MemberNames::name_of))]
fn name_of(member: Member) -> &'static str
    ensures name { result.now ≡ name_of member }
    ensures short { length result.now ≤ 20 }
{
    member.name()
}

#[tactic(auto, unfolding(crate::specs::Lines::duplicate_topology_line))]
fn make_duplicate_topology_line(
    alloc: Global,
    id: &Id,
    first: u64,
    second: u64,
) -> Result<Text, NoMemory>
    ensures { IfOk result (λ line. line ≡ duplicate_topology_line id.now first second) }
{
    let mut line = line_at(Spot {
        file: second,
        element: 0,
    });
    line.push(b"duplicate-topology ");
    line.push(id.text().as_bytes());
    line.push(b" ");
    line.push_number(first);
    line.push(b"\n");
    Text::copy(alloc, line.bytes())
}

#[tactic(auto, unfolding(crate::specs::Lines::duplicate_id_line))]
fn make_duplicate_id_line(
    alloc: Global,
    id: &Id,
    first: Spot,
    second: Spot,
) -> Result<Text, NoMemory>
    ensures { IfOk result (λ line. line ≡ duplicate_id_line id.now first second) }
{
    let mut line = line_at(second);
    line.push(b"duplicate-id ");
    line.push(id.text().as_bytes());
    line.push(b" ");
    line.push_number(first.file);
    line.push(b" ");
    line.push_number(first.element);
    line.push(b"\n");
    Text::copy(alloc, line.bytes())
}

#[tactic(auto, unfolding(crate::specs::Lines::wrong_kind_line))]
fn make_wrong_kind_line(
    alloc: Global,
    spot: Spot,
    member: Member,
    target: &Id,
) -> Result<Text, NoMemory>
    ensures { IfOk result (λ line. line ≡ wrong_kind_line spot member target.now) }
{
    let mut line = line_at(spot);
    line.push(b"wrong-kind ");
    line.push(name_of(member).as_bytes());
    line.push(b" ");
    line.push(target.text().as_bytes());
    line.push(b"\n");
    Text::copy(alloc, line.bytes())
}

/// The line on a fault of merging.
pub(crate) fn make_merge_line(alloc: Global, fault: &MergeFault) -> Result<Text, NoMemory>
    ensures { IfOk result (λ line. (line ≡ merge_line fault.now) × (fault.now ≢ merging.NoMemory)) }
{
    match fault {
        MergeFault::DuplicateTopology { id, first, second } => {
            make_duplicate_topology_line(alloc, id, *first, *second)
        }
        MergeFault::DuplicateId { id, first, second } => {
            make_duplicate_id_line(alloc, id, *first, *second)
        }
        MergeFault::WrongKind {
            spot,
            member,
            target,
        } => make_wrong_kind_line(alloc, *spot, *member, target),
        MergeFault::NoMemory => Err(NoMemory),
    }
}

/// A line on a fault that names two elements.
#[tactic(auto, unfolding(crate::specs::Lines::pair_line))]
pub(crate) fn make_pair_line(
    alloc: Global,
    spot: Spot,
    word: &[u8],
    first: &Id,
    second: &Id,
) -> Result<Text, NoMemory>
    requires { length word.now ≤ 20 }
    ensures { IfOk result (λ line. line ≡ pair_line spot word.now first.now second.now) }
{
    let mut line = line_at(spot);
    line.push(word);
    line.push(b" ");
    line.push(first.text().as_bytes());
    line.push(b" ");
    line.push(second.text().as_bytes());
    line.push(b"\n");
    Text::copy(alloc, line.bytes())
}
