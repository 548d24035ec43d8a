//! The words of a line.

ghost use Rattle.std.specs.Prelude.{◌≡◌, ◌≤◌, ◌∷◌, [], length, drop};
ghost use Rattle.std.specs.List.{position_or_len, prefix_len};
ghost use Rattle.std.specs.Option.{option_map_or};
ghost use Rattle.debug_lines.specs.Words.{is_space, words};

/// The first word of a line, and what is after it; none if there is no word.
pub(crate) fn split_word(line: &[u8]) -> Option<(&[u8], &[u8])>
    ensures { words line.now ≡ option_map_or (λ split. split.0.now ∷ words split.1.now) result [] }
{
    let rest = without_spaces(line);
    if rest.is_empty() {
        None
    } else {
        Some(rest.split_at(word_len(rest)))
    }
}

/// A line without the spaces that it begins with.
fn without_spaces(line: &[u8]) -> &[u8]
    ensures { result.now ≡ drop (prefix_len is_space line.now) line.now }
{
    &line[space_len(line)..]
}

/// How many spaces a line begins with.
#[tactic(auto, using(crate::proofs::FirstWords::prefix_is_within))]
fn space_len(line: &[u8]) -> usize
    ensures value { result ≡ prefix_len is_space line.now }
    ensures within { result ≤ length line.now }
{
    for (at, byte) in line.iter().enumerate() {
        if *byte != b' ' {
            return at;
        }
    }
    line.len()
}

/// How many bytes of a line come before its first space.
#[tactic(auto, using(crate::proofs::FirstWords::prefix_is_within))]
fn word_len(line: &[u8]) -> usize
    ensures value { result ≡ position_or_len is_space line.now }
    ensures within { result ≤ length line.now }
{
    for (at, byte) in line.iter().enumerate() {
        if *byte == b' ' {
            return at;
        }
    }
    line.len()
}
