// Lines of counts, each made in a fixed buffer and then kept.
ghost use Rattle.std.specs.Prelude.{◌≡◌, ◌≤◌, length, IfOk};
ghost use Rattle.survey_command.specs.Lines.{survey_line, domain_line, count_line};

use io_edges::Line;
use ml_base::NoMemory;
use nml_elements::Domain;
use replies::Text;
use std::alloc::Global;

#[tactic(auto, unfolding(crate::specs::Lines::survey_line))]
pub(crate) fn make_survey_line(alloc: Global) -> Result<Text, NoMemory>
    ensures { IfOk result (λ line. line ≡ survey_line) }
{
    Text::copy(alloc, b"survey\n")
}

#[tactic(auto, unfolding(crate::specs::Lines::domain_line))]
pub(crate) fn make_domain_line(alloc: Global, domain: &Domain) -> Result<Text, NoMemory>
    ensures { IfOk result (λ line. line ≡ domain_line domain.now) }
{
    let mut line = Line::new();
    line.push(b"domain ");
    line.push(domain.id.text().as_bytes());
    line.push(b" ");
    line.push_number(domain.elements.len());
    line.push(b"\n");
    Text::copy(alloc, line.bytes())
}

#[tactic(auto, unfolding(crate::specs::Lines::count_line))]
pub(crate) fn make_count_line(alloc: Global, word: &[u8], count: u64) -> Result<Text, NoMemory>
    requires { length word.now ≤ 20 }
    ensures { IfOk result (λ line. line ≡ count_line word.now count) }
{
    let mut line = Line::new();
    line.push(word);
    line.push_number(count);
    line.push(b"\n");
    Text::copy(alloc, line.bytes())
}
