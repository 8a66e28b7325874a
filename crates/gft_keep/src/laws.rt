//! Laws of images, for proofs. The functions do nothing.

ghost use Rattle.std.specs.Prelude.{◌≡◌, ℕ, length, slice_index};
ghost use Rattle.gft_drive.specs.Words.{Image};
ghost use Rattle.gft_drive.specs.declared.TheConstants.{RANGES_LEN};
ghost use Rattle.gft_journal.specs.declared.Damage.{Damage};
ghost use Rattle.gft_keep.specs.Image.{IsDamagedBy, IsSound};

/// What a new drive has is sound, and what is sound has no damage.
pub fn sound_images_have_no_damage()
    ensures new { (image : Image) → length image.ranges ≡ RANGES_LEN
        → ((x : ℕ) → slice_index image.ranges x ≡ 0) → IsSound image }
    ensures undamaged { (image : Image) (damage : Damage) → IsSound image → ¬ IsDamagedBy damage image }
{}
