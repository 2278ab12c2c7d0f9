ghost use Rattle.std.specs.Prelude.{◌≡◌, ℕ, List, Ok, Err};
ghost use Rattle.line_text.specs.Lines.{text_of, IsFirstMisfit};
ghost use Rattle.sizes_text.specs.declared.line.SizeLine.{SizeLine};
ghost use Rattle.sizes_text.specs.Table.{SizeTable, AreSizes};
ghost use Rattle.sizes_text.specs.Text.{size_lines, IsSizesText, Spells};
ghost use Rattle.sizes_text.specs.Reading.{sizes_in};

/// Sizes that are read are spelled so.
pub fn read_sizes_are_spelled()
    ensures { (bytes : List ℕ) (table : SizeTable) → sizes_in bytes ≡ Ok table → Spells bytes table }
{}

/// Sizes that are spelled are read.
pub fn spelled_sizes_are_read()
    ensures { (sizes : List SizeLine) (table : SizeTable) → AreSizes sizes table → sizes_in (text_of (size_lines sizes)) ≡ Ok table }
{}

/// A refused line is the first one that does not fit.
pub fn refused_sizes_line_is_first()
    ensures { (bytes : List ℕ) (n : ℕ) → sizes_in bytes ≡ Err n → IsFirstMisfit IsSizesText bytes n }
{}
