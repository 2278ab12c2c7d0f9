// Each line of a layout, made in a fixed buffer.
ghost use Rattle.std.specs.Prelude.{◌≡◌, ◌+◌, ◌≤◌, [], ◌∷◌, ◌++◌, length};
ghost use Rattle.circuit_spec.specs.Flags.{same_tag};
ghost use Rattle.domain_config.specs.Rules.{verb, verb_of, rule_line, domain_line};
ghost use Rattle.domain_config.specs.Views.{verb_view};

use crate::verb::Verb;
use circuit_spec::{Hop, HopKind};
use device_rules::Rule;
use io_edges::Line;
use line_text::{push_id, push_number, push_place, push_word};
use ml_base::{Id, Tag};
use place_names::tags_equal;

fn cross_verb(from: Tag, to: Tag) -> Verb
    ensures { verb_view result ≡ Rattle.domain_config.specs.Rules.cross_verb (same_tag from to) }
{
    if tags_equal(from, to) {
        return Verb::Connect;
    }
    Verb::Swap
}

/// What a device does for a hop.
pub fn hop_verb(hop: &Hop) -> Verb
    ensures { verb_view result ≡ verb_of hop.now.kind hop.now.from_label hop.now.to_label }
{
    match hop.kind {
        HopKind::Link => Verb::Carry,
        HopKind::Cross => cross_verb(hop.from_label, hop.to_label),
        HopKind::Adapt => Verb::Wrap,
        HopKind::Deadapt => Verb::Unwrap,
        HopKind::Convert => Verb::Convert,
    }
}

fn push_verb(line: &mut Line, verb: Verb)
    requires { length line.old + 8 ≤ 1280 }
    ensures spelled { line.new ≡ line.old ++ 32 ∷ Rattle.domain_config.specs.Rules.verb (verb_view verb) }
    ensures long { length line.new ≤ length line.old + 8 }
{
    match verb {
        Verb::Carry => push_word(line, b"carry"),
        Verb::Connect => push_word(line, b"connect"),
        Verb::Swap => push_word(line, b"swap"),
        Verb::Wrap => push_word(line, b"wrap"),
        Verb::Unwrap => push_word(line, b"unwrap"),
        Verb::Convert => push_word(line, b"convert"),
    }
}

pub(crate) fn make_rule_line(rule: &Rule) -> Line
    ensures { result ≡ rule_line rule.now ++ 10 ∷ [] }
{
    let mut line = Line::new();
    line.push(b"rule");
    push_number(&mut line, rule.number);
    push_verb(&mut line, hop_verb(&rule.hop));
    push_id(&mut line, &rule.hop.element);
    push_place(&mut line, &rule.hop.from, rule.hop.from_label);
    push_place(&mut line, &rule.hop.to, rule.hop.to_label);
    line.push(b"\n");
    line
}

pub(crate) fn make_domain_line(domain: &Id) -> Line
    ensures { result ≡ domain_line domain.now ++ 10 ∷ [] }
{
    let mut line = Line::new();
    line.push(b"domain");
    push_id(&mut line, domain);
    line.push(b"\n");
    line
}
