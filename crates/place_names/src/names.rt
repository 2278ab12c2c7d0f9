ghost use Rattle.std.specs.Prelude.{◌≡◌, IsTrue};
ghost use Rattle.place_names.specs.Names.{is_id, IsTag, is_below, is_tag_below, is_place_below};
ghost use Rattle.circuit_spec.specs.Flags.{same_tag, same_place};

use circuit_spec::PlaceName;
use ml_base::{Id, Tag};

/// Whether an id stands before another in the order of their bytes.
pub fn id_below(a: &Id, b: &Id) -> bool
    ensures { result ≡ is_below a.now b.now }
{
    a < b
}

/// An id and a label say of themselves that they are ones.
pub fn know_place(id: &Id, label: Tag)
    ensures id { IsTrue (is_id id.now) }
    ensures label { IsTag label }
{
    let _text = id.text();
}

/// Whether a label stands before another: no label first, then by number.
pub fn tag_below(a: Tag, b: Tag) -> bool
    ensures { result ≡ is_tag_below a b }
{
    match (a, b) {
        (None, Some(_)) => true,
        (Some(a), Some(b)) => a < b,
        _ => false,
    }
}

/// Whether two labels are the same, or both are none.
pub fn tags_equal(a: Tag, b: Tag) -> bool
    ensures { result ≡ same_tag a b }
{
    match (a, b) {
        (None, None) => true,
        (Some(a), Some(b)) => a == b,
        _ => false,
    }
}

/// Whether a place stands before another: by port in the order of their bytes, then by label.
pub fn place_below(a: &PlaceName, b: &PlaceName) -> bool
    ensures { result ≡ is_place_below a.now b.now }
{
    id_below(&a.class, &b.class) || (a.class == b.class && tag_below(a.label, b.label))
}

/// Whether two places are the same.
pub fn places_equal(a: &PlaceName, b: &PlaceName) -> bool
    ensures { result ≡ same_place a.now b.now }
{
    a.class == b.class && tags_equal(a.label, b.label)
}
