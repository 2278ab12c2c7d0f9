ghost use Rattle.std.specs.Prelude.{◌≡◌, ◌<◌, ◌*◌, ◌/◌, ◌%◌, ℕ};
ghost use Rattle.adapt_machine.specs.Machine.{MachineValue};
ghost use Rattle.marked_machine.specs.declared.marks.Marks.{Marks as MarksValue};
ghost use Rattle.marked_machine.specs.MarkedRuns.{AreIn, AreMarked};
ghost use Rattle.marked_machine.specs.Product.{place_of, IsProduct, ProductValue};

/// A run of a product with the empty stack at both ends comes from a run of the machine that has a run of marks, by its base steps and
/// with its weight.
pub fn product_runs_are_marked()
    ensures { (m : MachineValue) (marks : MarksValue) (p : ProductValue) → IsProduct m marks p → AreMarked m marks p }
{}

/// Each run of the machine that has a run of marks is one of the product, with its weight.
pub fn marked_runs_are_in_product()
    ensures { (m : MachineValue) (marks : MarksValue) (p : ProductValue) → IsProduct m marks p → AreIn m marks p }
{}

/// A state of the product tells its state of the machine and its mark.
pub fn numbers_are_apart()
    ensures base { (count base mark : ℕ) → mark < count → place_of count base mark / count ≡ base }
    ensures mark { (count base mark : ℕ) → mark < count → place_of count base mark % count ≡ mark }
{}

/// The number of a state of the machine and a mark is below the number of the product's states.
pub fn numbers_are_within()
    ensures { (count base mark bases : ℕ) → base < bases → mark < count → place_of count base mark < bases * count }
{}
