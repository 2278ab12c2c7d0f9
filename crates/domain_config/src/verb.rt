ghost use Rattle.std.specs.Prelude.{◌≡◌, option_map};
ghost use Rattle.line_text.specs.Fields.{entry_of};
ghost use Rattle.domain_config.specs.Rules.{verbs};
ghost use Rattle.domain_config.specs.Views.{verb_view};

/// What a device does with a unit.
#[derive(Clone, Copy, Debug, PartialEq, Eq)]
pub enum Verb {
    Carry,
    Connect,
    Swap,
    Wrap,
    Unwrap,
    Convert,
}

/// The verb that a word spells.
pub fn read_verb(word: &[u8]) -> Option<Verb>
    ensures { option_map verb_view result ≡ entry_of verbs word.now }
{
    if word == b"carry".as_slice() {
        return Some(Verb::Carry);
    }
    if word == b"connect".as_slice() {
        return Some(Verb::Connect);
    }
    if word == b"swap".as_slice() {
        return Some(Verb::Swap);
    }
    if word == b"wrap".as_slice() {
        return Some(Verb::Wrap);
    }
    if word == b"unwrap".as_slice() {
        return Some(Verb::Unwrap);
    }
    if word == b"convert".as_slice() {
        return Some(Verb::Convert);
    }
    None
}
