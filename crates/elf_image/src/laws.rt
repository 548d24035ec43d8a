//! Laws of files and images. There is nothing to run: a caller calls one for what it ensures.

ghost use Rattle.std.specs.Prelude.{Bool, ◌≡◌, ◌≤◌, ◌^◌, length, false, None, sum_by};
ghost use Rattle.node_memory.specs.Image.{Image, Segment};
ghost use Rattle.elf_image.specs.Faults.{file_fault, most_segment_bytes};
ghost use Rattle.elf_image.specs.Presents.{Presents};
ghost use Rattle.elf_image.specs.Spelling.{IsImage, spelling_of};

/// The file that an image is saved as can be loaded: if the image has at most 2^24 bytes, it has no fault, for a large machine or another,
/// and is not too long; and it presents that image and no other.
pub fn the_spelling_of_an_image_presents_it_and_no_other()
    ensures no_fault { (large : Bool) (i : Image) → IsImage i → sum_by (λ (s : Segment). length s.bytes) i.segments ≤ 2 ^ 24
        → file_fault large (spelling_of i) ≡ None }
    ensures short { (i : Image) → IsImage i → sum_by (λ (s : Segment). length s.bytes) i.segments ≤ 2 ^ 24
        → length (spelling_of i) ≤ 2 ^ 25 }
    ensures presents { (i : Image) → IsImage i → Presents (spelling_of i) i }
    ensures no_other { (i j : Image) → IsImage i → Presents (spelling_of i) j → j ≡ i }
{}

/// The segments of a file for a machine that is not large have 2^24 bytes at most.
pub fn segments_have_these_bytes_unless_the_machine_is_large()
    ensures { most_segment_bytes false ≡ 2 ^ 24 }
{}
