ghost use Rattle.std.specs.Prelude.{◌≡◌};
ghost use Rattle.layer_check.specs.Places.{lesser_of, number_of};

use ml_base::PortNo;

/// The lesser of two ports, of those that are there.
pub fn lesser(one: Option<PortNo>, other: Option<PortNo>) -> Option<PortNo>
    ensures { number_of result ≡ lesser_of (number_of one) (number_of other) }
{
    match (one, other) {
        (Some(one), Some(other)) => Some(if one.0 <= other.0 { one } else { other }),
        (Some(one), None) => Some(one),
        (None, other) => other,
    }
}
