ghost use Rattle.std.specs.Prelude.{IsTrue};
ghost use Rattle.nml_elements.specs.Labels.{fits_group};

use crate::Labels;

/// The labels of a port or a link, or of a group of them, which they fit.
#[derive(Debug, Drop)]
pub struct FittedLabels {
    pub group: bool,
    pub labels: Labels,
    ghost labelled: { IsTrue (fits_group group labels) },
}
