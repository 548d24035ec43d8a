//! The lines of a text.

ghost use Rattle.std.specs.Prelude.{◌≡◌, ◌∷◌, [], ◌<◌, length, IfSome};
ghost use Rattle.std.specs.List.{position};
ghost use Rattle.asm_syntax.specs.Bytes.{is_line_feed};
ghost use Rattle.std.specs.Option.{option_map_or};
ghost use Rattle.asm_syntax.specs.Lines.{lines_of, without_return};

/// The first line of a text, and the text after the line feed that ends it; none if it ends with the text.
///
/// A line is answered without its line feed, and without a carriage return right before that.
pub fn split_line(text: &[u8]) -> (&[u8], Option<&[u8]>)
    ensures lines { lines_of text.now ≡ result.0.now ∷ option_map_or (λ rest. lines_of rest.now) result.1 [] }
    ensures shorter { IfSome result.1 (λ rest. length rest.now < length text.now) }
{
    match line_feed(text) {
        Some(at) => (without_return(&text[..at]), Some(&text[at + 1..])),
        None => (text, None),
    }
}

/// Where the first line feed of a text is.
fn line_feed(text: &[u8]) -> Option<usize>
    ensures { result ≡ position is_line_feed text.now }
{
    text.iter().position(|byte| *byte == b'\n')
}

/// A line that a line feed ended, without the carriage return that may stand before the line feed.
fn without_return(line: &[u8]) -> &[u8]
    ensures { result.now ≡ without_return line.now }
{
    match line {
        [front @ .., b'\r'] => front,
        _ => line,
    }
}
