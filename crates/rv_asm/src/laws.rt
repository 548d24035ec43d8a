//! Laws of texts, their faults and their images. There is nothing to run: a caller calls one for what it ensures.

ghost use Rattle.std.specs.Prelude.{◌≡◌, ◌≢◌, List, ℕ, None, Some};
ghost use Rattle.node_memory.specs.Image.{Image};
ghost use Rattle.rv_atomics.specs.declared.extensions.Extensions.{Extensions};
ghost use Rattle.rv_asm.specs.Faults.{text_fault};
ghost use Rattle.rv_asm.specs.Text.{IsImageOfText};
ghost use Rattle.rv_asm.specs.declared.errors.AsmKind.TheVariants.{NoMemory};

/// A text has at most one image.
pub fn a_text_has_at_most_one_image()
    ensures { (extensions : Extensions) (text : List ℕ) (a b : Image)
        → IsImageOfText extensions text a → IsImageOfText extensions text b → a ≡ b }
{}

/// A text without a fault has an image.
///
/// The converse does not hold: a text that is too large, or that has a label twice at one address, has an image and a
/// fault.
pub fn a_text_without_a_fault_has_an_image()
    ensures { (extensions : Extensions) (text : List ℕ)
        → text_fault extensions text ≡ None → (image : Image) × IsImageOfText extensions text image }
{}

/// Lack of memory is not a fault of a text.
pub fn want_of_memory_is_no_fault()
    ensures { (extensions : Extensions) (text : List ℕ) (line : ℕ) → text_fault extensions text ≢ Some (line, NoMemory) }
{}
