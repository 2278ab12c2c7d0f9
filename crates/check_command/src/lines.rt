// Lines on verdicts and replays, each made in a fixed buffer and then kept.
ghost use Rattle.std.specs.Prelude.{◌≡◌, ◌≤◌, ◌++◌, length, codes, decimal, IfOk};
ghost use Rattle.verdict.specs.Rules.{number};
ghost use Rattle.check_command.specs.Lines.{carried_line, cause_end, not_carried_line, not_valid_line, order_end, outcome_end, replay_line, valid_line, verdict_line};

use circuit_spec::Outcome;
use io_edges::Line;
use ml_base::NoMemory;
use replies::Text;
use rule_replay::{ReplayCause, Replayed};
use std::alloc::Global;
use verdict::{Rule, Verdict};

fn push_weight(line: &mut Line, word: &[u8], cost: u64, hops: u64)
    requires begun { length line.old ≤ 100 }
    requires short { length word.now ≤ 20 }
    ensures { line.new ≡ line.old ++ word.now ++ decimal cost ++ codes " " ++ decimal hops ++ codes "\n" }
{
    line.push(word);
    line.push_number(cost);
    line.push(b" ");
    line.push_number(hops);
    line.push(b"\n");
}

fn push_outcome_end(line: &mut Line, outcome: &Outcome)
    requires { length line.old ≤ 100 }
    ensures { line.new ≡ line.old ++ outcome_end outcome.now }
{
    match outcome {
        Outcome::Found { cost, hops } => push_weight(line, b"found ", *cost, *hops),
        Outcome::NoWalk => line.push(b"none\n"),
        Outcome::Past => line.push(b"past\n"),
        Outcome::Long { cost, hops } => push_weight(line, b"long ", *cost, *hops),
    }
}

#[tactic(auto, unfolding(crate::specs::Lines::valid_line))]
fn make_valid_line(alloc: Global, outcome: &Outcome) -> Result<Text, NoMemory>
    ensures { IfOk result (λ line. line ≡ valid_line outcome.now) }
{
    let mut line = Line::new();
    line.push(b"valid ");
    push_outcome_end(&mut line, outcome);
    Text::copy(alloc, line.bytes())
}

#[tactic(auto, unfolding(crate::specs::Lines::not_valid_line))]
fn make_not_valid_line(alloc: Global, at: u64, rule: Rule) -> Result<Text, NoMemory>
    ensures { IfOk result (λ line. line ≡ not_valid_line at (number rule)) }
{
    let mut line = Line::new();
    line.push(b"not-valid ");
    line.push_number(at);
    line.push(b" ");
    line.push_number(rule.number() as u64);
    line.push(b"\n");
    Text::copy(alloc, line.bytes())
}

/// The line that tells a verdict.
pub(crate) fn make_verdict_line(alloc: Global, verdict: &Verdict) -> Result<Text, NoMemory>
    ensures { IfOk result (λ line. line ≡ verdict_line verdict.now) }
{
    match verdict {
        Verdict::Valid { outcome } => make_valid_line(alloc, outcome),
        Verdict::NotValid { line, rule } => make_not_valid_line(alloc, *line, *rule),
    }
}

fn push_order_end(line: &mut Line, any_order: bool)
    requires { length line.old ≤ 100 }
    ensures { line.new ≡ line.old ++ order_end any_order }
{
    if any_order {
        line.push(b"any-order\n");
    } else {
        line.push(b"numbered\n");
    }
}

#[tactic(auto, unfolding(crate::specs::Lines::carried_line))]
fn make_carried_line(alloc: Global, rules: u64, any_order: bool) -> Result<Text, NoMemory>
    ensures { IfOk result (λ line. line ≡ carried_line rules any_order) }
{
    let mut line = Line::new();
    line.push(b"carried ");
    line.push_number(rules);
    line.push(b" ");
    push_order_end(&mut line, any_order);
    Text::copy(alloc, line.bytes())
}

fn push_cause_end(line: &mut Line, cause: ReplayCause)
    requires { length line.old ≤ 100 }
    ensures { line.new ≡ line.old ++ cause_end cause }
{
    match cause {
        ReplayCause::Text => line.push(b"text\n"),
        ReplayCause::Outcome => line.push(b"outcome\n"),
        ReplayCause::Request => line.push(b"request\n"),
        ReplayCause::Number => line.push(b"number\n"),
        ReplayCause::NoHop => line.push(b"no-hop\n"),
        ReplayCause::Label => line.push(b"label\n"),
        ReplayCause::Frame => line.push(b"frame\n"),
        ReplayCause::End => line.push(b"end\n"),
    }
}

#[tactic(auto, unfolding(crate::specs::Lines::not_carried_line))]
fn make_not_carried_line(alloc: Global, at: u64, cause: ReplayCause) -> Result<Text, NoMemory>
    ensures { IfOk result (λ line. line ≡ not_carried_line at cause) }
{
    let mut line = Line::new();
    line.push(b"not-carried ");
    line.push_number(at);
    line.push(b" ");
    push_cause_end(&mut line, cause);
    Text::copy(alloc, line.bytes())
}

/// The line that tells what the rules of a document do.
pub(crate) fn make_replay_line(alloc: Global, replayed: &Replayed) -> Result<Text, NoMemory>
    ensures { IfOk result (λ line. line ≡ replay_line replayed.now) }
{
    match replayed {
        Replayed::Carried { rules, any_order } => make_carried_line(alloc, *rules, *any_order),
        Replayed::NotCarried { at, cause } => make_not_carried_line(alloc, *at, *cause),
    }
}
