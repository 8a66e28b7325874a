//! Laws of plans, for proofs. The functions do nothing.

ghost use Rattle.std.specs.Prelude.{ℕ, List};
ghost use Rattle.std.specs.List.{AllByRecursion};
ghost use Rattle.gft_range.specs.declared.range.Range.{Range};
ghost use Rattle.gft_range.specs.Words.{InRange};
ghost use Rattle.gft_layout.specs.declared.Layout.{Layout};
ghost use Rattle.gft_layout.specs.declared.Shape.{Shape};
ghost use Rattle.gft_layout.specs.Owner.{IsOwner, IsShape, Owner, owner_of};
ghost use Rattle.gft_layout.specs.Plan.{plan_of};
ghost use Rattle.gft_layout.specs.Runs.{IsLongestRun, NamesItsOffsets};

/// Over all stripes and channels the plans name each offset of the region that isn't done once, in
/// the plan of its owner, and no other offset.
pub fn plans_name_each_place_once()
    ensures plan { (region : Range) (done : List Range) (layout : Layout) (shape : Shape) (owner : Owner) →
        NamesItsOffsets region done layout shape owner
        (plan_of region done layout shape owner.stripe owner.channel) }
    ensures owner { (region : Range) (layout : Layout) (shape : Shape) (x : ℕ) → IsShape shape →
        InRange region x → IsOwner shape (owner_of region layout shape x) }
{}

/// Each block of a plan is a longest run of consecutive offsets that aren't done, inside one layout
/// block.
pub fn plans_are_longest_runs()
    ensures { (region : Range) (done : List Range) (layout : Layout) (shape : Shape) (stripe channel : ℕ) →
        AllByRecursion (IsLongestRun region done layout shape)
        (plan_of region done layout shape stripe channel) }
{}
