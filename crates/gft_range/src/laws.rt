//! Laws of normal lists and of their texts, for proofs. The functions do nothing.

ghost use Rattle.std.specs.Prelude.{◌≡◌, ℕ, ◌≤◌, ◌↔◌, List, length};
ghost use Rattle.gft_range.specs.Range.{HasOffset};
ghost use Rattle.gft_range.specs.Normal.{IsNormal};
ghost use Rattle.gft_range.specs.ListText.{IsList, FitRanges, list_text};
ghost use Rattle.gft_range.specs.declared.TheConstants.{MAX_ITEMS};
ghost use Rattle.gft_range.specs.declared.range.Range.{Range};

/// Two normal lists with the same offsets are equal.
pub fn one_normal_list()
    ensures { (a b : List Range) → IsNormal a → IsNormal b →
        ((x : ℕ) → HasOffset a x ↔ HasOffset b x) → a ≡ b }
{}

/// No text names two sets, the set that a text names has at most `MAX_ITEMS` ranges, and the text that is
/// written of a set names it.
pub fn lists_have_one_value()
    ensures one { (text : List ℕ) (a b : List Range) → IsList text a → IsList text b → a ≡ b }
    ensures few { (text : List ℕ) (set : List Range) → IsList text set → length set ≤ MAX_ITEMS }
    ensures written { (set : List Range) → IsNormal set → FitRanges set → length set ≤ MAX_ITEMS →
        IsList (list_text set) set }
{}
