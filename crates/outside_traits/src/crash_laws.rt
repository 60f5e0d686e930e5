//! What holds of every disk after a crash, whatever wrote to it: laws over the definitions alone, each the contract of a function with nothing to do.
ghost use Rattle.std.specs.Prelude.{◌≡◌, ◌↔◌, ◌≤◌, ◌+◌, ℕ, List, length, take};
ghost use Rattle.outside_traits.specs.Disks.{DiskState, put_at_or_past, OpensRange, Synced};
ghost use Rattle.outside_traits.specs.Bytes.{IsBytes};
ghost use Rattle.outside_traits.specs.CrashImages.{IsImage, IsOpen, KeepsImage};
ghost use Rattle.outside_traits.specs.Moments.{History, TakesStep, Since, IsImageSince, WasImage};

/// After a sync a crash leaves one image, what a read gave.
pub fn one_image_after_a_sync()
    ensures law { (old new : History) (image : List ℕ) → TakesStep Synced old new → IsBytes old.now.reads → (IsImage new.now image ↔ (image ≡ old.now.reads)) }
{}

/// A write inside an open range adds no other image, whether it was done or failed.
pub fn no_other_image_inside_an_open_range()
    ensures law { (at n : ℕ) (s next : DiskState) (image : List ℕ) → IsOpen s at n → OpensRange at n s next → (IsImage next image ↔ IsImage s image) }

    // Open are a range that was written, and what lies past the bytes that were synced.
    ensures written { (at n from m : ℕ) (s next : DiskState) → OpensRange at n s next → at ≤ from → from + m ≤ at + n → IsOpen next from m }
    ensures past { (s : DiskState) (from m : ℕ) → length s.synced ≤ from → from + m ≤ s.longest → IsOpen s from m }
{}

/// In an open range a crash may leave any bytes, whatever else it leaves, and of a file that grew any length from that at the last sync on.
pub fn any_bytes_and_any_length_of_what_is_open()
    ensures bytes { (at : ℕ) (bytes file : List ℕ) (s : DiskState) → IsBytes bytes → IsOpen s at (length bytes)
        → KeepsImage s file (put_at_or_past at bytes file) }
    ensures length { (n : ℕ) (file : List ℕ) (s : DiskState) → length s.synced ≤ n → KeepsImage s file (take n file) }
{}

/// The images since a moment are those of some moment since.
pub fn images_since_are_those_of_a_moment()
    ensures law { (old new : History) (image : List ℕ) → IsImageSince old new image ↔ WasImage old new image }
{}

/// What a crash within a prefix of the calls could leave is among what a crash within all of them could.
pub fn image_of_a_prefix()
    ensures law { (old mid new : History) (image : List ℕ) → Since mid new → IsImageSince old mid image → IsImageSince old new image }
{}
