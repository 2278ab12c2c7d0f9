// The lines of a summary, each made in a fixed buffer and then kept.
ghost use Rattle.std.specs.Prelude.{◌≡◌, ◌≤◌, ◌++◌, [], ◌∷◌, IfOk, codes, decimal, length};
ghost use Rattle.answer_text.specs.Spelling.{outcome_line};
ghost use Rattle.drill_command.specs.Lines.{drill_line, size_line, valid_line, order_words, carried_line, nothing_line, told_line};

use circuit_spec::Outcome;
use io_edges::Line;
use ml_base::NoMemory;
use replies::Text;
use rule_replay::Replayed;
use std::alloc::Global;

#[tactic(auto, unfolding(crate::specs::Lines::drill_line))]
pub(crate) fn make_drill_line(alloc: Global, levels: u32) -> Result<Text, NoMemory>
    ensures { IfOk result (λ line. line ≡ drill_line levels) }
{
    let mut line = Line::new();
    line.push(b"drill ");
    line.push_number(u64::from(levels));
    line.push(b"\n");
    Text::copy(alloc, line.bytes())
}

#[tactic(auto, unfolding(crate::specs::Lines::size_line))]
pub(crate) fn make_size_line(alloc: Global, levels: u32) -> Result<Text, NoMemory>
    ensures { IfOk result (λ line. line ≡ size_line levels) }
{
    let levels = u64::from(levels);
    let mut line = Line::new();
    line.push(b"domains ");
    line.push_number(levels + 1);
    line.push(b" ports ");
    line.push_number(2 + 3 * levels);
    line.push(b" links ");
    line.push_number(8);
    line.push(b" services ");
    line.push_number(4 * levels);
    line.push(b"\n");
    Text::copy(alloc, line.bytes())
}

fn make_known_line(alloc: Global, words: &[u8], cost: u64, hops: u64) -> Result<Text, NoMemory>
    requires { length words.now ≤ 20 }
    ensures { IfOk result (λ line. line ≡ words.now ++ (32 ∷ (decimal cost ++ 32 ∷ (decimal hops ++ 10 ∷ [])))) }
{
    let mut line = Line::new();
    line.push(words);
    line.push(b" ");
    line.push_number(cost);
    line.push(b" ");
    line.push_number(hops);
    line.push(b"\n");
    Text::copy(alloc, line.bytes())
}

/// The line of an outcome, as its document has it.
pub(crate) fn make_outcome_line(alloc: Global, outcome: Outcome) -> Result<Text, NoMemory>
    ensures { IfOk result (λ line. line ≡ outcome_line outcome ++ codes "\n") }
{
    match outcome {
        Outcome::Found { cost, hops } => make_known_line(alloc, b"outcome found", cost, hops),
        Outcome::NoWalk => Text::copy(alloc, b"outcome none\n"),
        Outcome::Past => Text::copy(alloc, b"outcome past\n"),
        Outcome::Long { cost, hops } => make_known_line(alloc, b"outcome long", cost, hops),
    }
}

#[tactic(auto, unfolding(crate::specs::Lines::valid_line))]
pub(crate) fn make_valid_line(alloc: Global) -> Result<Text, NoMemory>
    ensures { IfOk result (λ line. line ≡ valid_line) }
{
    Text::copy(alloc, b"check valid\n")
}

fn push_order(line: &mut Line, any_order: bool)
    requires { length line.old ≤ 100 }
    ensures { line.new ≡ line.old ++ order_words any_order }
{
    if any_order {
        line.push(b"any-order\n");
    } else {
        line.push(b"numbered\n");
    }
}

#[tactic(auto, unfolding(crate::specs::Lines::carried_line))]
fn make_carried_line(alloc: Global, hops: u64, any_order: bool) -> Result<Text, NoMemory>
    ensures { IfOk result (λ line. line ≡ carried_line hops any_order) }
{
    let mut line = Line::new();
    line.push(b"replay carried ");
    line.push_number(hops);
    line.push(b" ");
    push_order(&mut line, any_order);
    Text::copy(alloc, line.bytes())
}

#[tactic(auto, unfolding(crate::specs::Lines::nothing_line))]
fn make_nothing_line(alloc: Global) -> Result<Text, NoMemory>
    ensures { IfOk result (λ line. line ≡ nothing_line) }
{
    Text::copy(alloc, b"replay -\n")
}

/// The line that tells whether the rules of an answer carry the unit.
pub(crate) fn make_replay_line(alloc: Global, told: Replayed) -> Result<Text, NoMemory>
    ensures { IfOk result (λ line. line ≡ told_line told) }
{
    match told {
        Replayed::Carried { rules, any_order } => make_carried_line(alloc, rules, any_order),
        Replayed::NotCarried { .. } => make_nothing_line(alloc),
    }
}
