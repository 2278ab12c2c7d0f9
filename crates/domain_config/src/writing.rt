ghost use Rattle.std.specs.Prelude.{◌≤◌, OnOk, OnErr, option_copied};
ghost use Rattle.std.specs.Io.KnownBytes.{Appends};
ghost use Rattle.io_edges.specs.Counts.{Rose};
ghost use Rattle.io_edges.specs.Stores.{AppendsFront};
ghost use Rattle.line_text.specs.Lines.{text_of};
ghost use Rattle.device_rules.specs.Rules.{Start, AreLaidOut, after};
ghost use Rattle.domain_config.specs.Rules.{domain_lines, rule_lines};
ghost use Rattle.domain_config.specs.Writing.{lines_at};

use crate::making::{make_domain_line, make_rule_line};
use device_rules::{Rule, RuleList};
use io_edges::{Failed, Sink};
use line_text::write_line;
use ml_base::Id;

fn write_domain<K: Sink>(previous: Option<&Rule>, domain: &Id, out: &mut K) -> Result<(), Failed>
    ensures ok { OnOk result (Appends (K.written out.old) (K.written out.new) (text_of (domain_lines (after (option_copied previous.entry)) domain.now))) }
    ensures faults { K.faults out.old ≤ K.faults out.new }
    ensures failed { OnErr result (Rose (K.faults out.old) (K.faults out.new)) }
    ensures front { OnErr result (AppendsFront (K.written out.old) (K.written out.new) (text_of (domain_lines (after (option_copied previous.entry)) domain.now))) }
{
    if let Some(rule) = previous {
        if rule.hop.domain == *domain {
            return Ok(());
        }
    }
    write_line(&make_domain_line(domain), out)?;
    Ok(())
}

fn write_rule<K: Sink>(previous: Option<&Rule>, rule: &Rule, out: &mut K) -> Result<(), Failed>
    ensures ok { OnOk result (Appends (K.written out.old) (K.written out.new) (text_of (lines_at (after (option_copied previous.entry)) rule.now))) }
    ensures faults { K.faults out.old ≤ K.faults out.new }
    ensures failed { OnErr result (Rose (K.faults out.old) (K.faults out.new)) }
    ensures front { OnErr result (AppendsFront (K.written out.old) (K.written out.new) (text_of (lines_at (after (option_copied previous.entry)) rule.now))) }
{
    write_domain(previous, &rule.hop.domain, out)?;
    write_line(&make_rule_line(rule), out)?;
    Ok(())
}

/// Writes rules that are laid out: for each domain a line, and behind it a line for each of its rules. It takes no
/// memory.
pub fn write_rules<K: Sink>(rules: &RuleList, out: &mut K) -> Result<(), Failed>
    requires { AreLaidOut Start rules.now }
    ensures ok { OnOk result (Appends (K.written out.old) (K.written out.new) (text_of (rule_lines Start rules.now))) }
    ensures faults { K.faults out.old ≤ K.faults out.new }
    ensures failed { OnErr result (Rose (K.faults out.old) (K.faults out.new)) }
    ensures front { OnErr result (AppendsFront (K.written out.old) (K.written out.new) (text_of (rule_lines Start rules.now))) }
{
    let mut previous: Option<&Rule> = None;
    for rule in rules.as_slice() {
        write_rule(previous, rule, out)?;
        previous = Some(rule);
    }
    Ok(())
}
