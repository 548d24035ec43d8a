//! The tokens of a line.

ghost use Rattle.std.specs.Prelude.{true, ◌≡◌, ◌≢◌, ◌≤◌, ◌<◌, ◌+◌, Some, None, IfOk, IfErr, IfSome, length, map, drop, slice_index, take};
ghost use Rattle.std.specs.List.{prefix_len, take_while};
ghost use Rattle.std.specs.Option.{option_map, option_map_or};
ghost use Rattle.asm_syntax.specs.Bytes.{is_word_byte};
ghost use Rattle.asm_syntax.specs.Tokens.{text, token, nothing, tokens_of, head_of, word_token, sign_token, text_from};
ghost use Rattle.asm_syntax.specs.TokenViews.{token_value, head_value, IsWithinLine};

use crate::bytes;
use crate::error::LineError;
use crate::number::number_value;
use crate::text::text_len;
use std::alloc::Allocator;

/// A token, as the bytes of the line that spell it.
#[derive(Clone, Copy, Debug)]
pub(crate) enum Token<'a> {
    Name(&'a [u8]),
    /// The digits of a number, with `0x` before them if they are hexadecimal.
    Number(&'a [u8]),
    /// What is between the `"` of a string, with its escapes.
    Text(&'a [u8]),
    Comma,
    Colon,
    Open,
    Close,
    Plus,
    Minus,
}

/// What a line begins with.
#[derive(Clone, Copy, Debug)]
pub(crate) enum Head<'a> {
    Blank,
    Comment,
    /// A token, and how many bytes spell it.
    Token(Token<'a>, usize),
    /// None of these.
    Nothing,
}

/// The tokens of a line.
pub(crate) fn tokens<'a, A: Allocator + Copy>(
    alloc: A,
    line: &'a [u8],
) -> Result<Vec<Token<'a>, A>, LineError>
    ensures ok { IfOk result (λ tokens. tokens_of line.now ≡ Some (map token_value tokens.items)) }
    ensures err { IfErr result (λ e. e ≢ LineError.NoMemory
        → (e ≡ LineError.BadToken) × (tokens_of line.now ≡ None)) }
{
    let mut tokens = Vec::new(alloc);
    let mut at = 0;
    while at < line.len() {
        match read_head(&line[at..]) {
            Head::Blank => at += 1,
            Head::Comment => return Ok(tokens),
            Head::Token(token, len) => {
                tokens.push(token)?;
                at += len;
            }
            Head::Nothing => return Err(LineError::BadToken),
        }
    }
    Ok(tokens)
}

/// What a line begins with that is not empty.
fn read_head(line: &[u8]) -> Head<'_>
    requires { 0 < length line.now }
    ensures value { head_value result ≡ head_of (slice_index line.now 0) (drop 1 line.now) }
    ensures within { IsWithinLine result (length line.now) }
{
    let first = line[0];
    if bytes::is_blank(first) {
        Head::Blank
    } else if first == b'#' {
        Head::Comment
    } else if bytes::is_word_byte(first) {
        word_head(line)
    } else if first == b'"' {
        text_head(&line[1..])
    } else {
        sign_head(first)
    }
}

/// The token of the word that a line begins with.
fn word_head(line: &[u8]) -> Head<'_>
    requires not_empty { 0 < length line.now }
    requires word { is_word_byte (slice_index line.now 0) ≡ true }
    ensures value { head_value result
        ≡ option_map_or (λ t. token t (prefix_len is_word_byte (drop 1 line.now) + 1))
        (word_token (slice_index line.now 0) (take_while is_word_byte (drop 1 line.now))) nothing }
    ensures within { IsWithinLine result (length line.now) }
{
    let len = word_len(line);
    match word_token(&line[..len]) {
        Some(token) => Head::Token(token, len),
        None => Head::Nothing,
    }
}

/// The token of the string that stands after a `"`.
fn text_head(rest: &[u8]) -> Head<'_>
    ensures value { head_value result
        ≡ option_map_or (λ t. token (text t.content) (t.len + 1)) (text_from rest.now) nothing }
    ensures within { IsWithinLine result (length rest.now + 1) }
{
    match text_len(rest) {
        Some(len) => Head::Token(Token::Text(&rest[..len - 1]), len + 1),
        None => Head::Nothing,
    }
}

/// The token of a byte, if it is a sign.
fn sign_head(byte: u8) -> Head<'static>
    ensures value { head_value result ≡ option_map_or (λ t. token t 1) (sign_token byte) nothing }
    ensures within { IsWithinLine result 1 }
{
    match sign_token(byte) {
        Some(token) => Head::Token(token, 1),
        None => Head::Nothing,
    }
}

/// How many bytes of names and numbers a line begins with.
fn word_len(line: &[u8]) -> usize
    ensures { result ≡ prefix_len is_word_byte line.now }
{
    for (at, byte) in line.iter().enumerate() {
        if !bytes::is_word_byte(*byte) {
            return at;
        }
    }
    line.len()
}

/// The token of a word that is not empty: a number if it begins with a digit, else a name.
fn word_token(word: &[u8]) -> Option<Token<'_>>
    requires { 0 < length word.now }
    ensures { option_map token_value result ≡ word_token (slice_index word.now 0) (drop 1 word.now) }
{
    if !word[0].is_ascii_digit() {
        return Some(Token::Name(word));
    }
    number_value(word)?;
    Some(Token::Number(word))
}

/// The token of a byte that is a sign.
fn sign_token(byte: u8) -> Option<Token<'static>>
    ensures { option_map token_value result ≡ sign_token byte }
{
    match byte {
        b',' => Some(Token::Comma),
        b':' => Some(Token::Colon),
        b'(' => Some(Token::Open),
        b')' => Some(Token::Close),
        b'+' => Some(Token::Plus),
        b'-' => Some(Token::Minus),
        _ => None,
    }
}
