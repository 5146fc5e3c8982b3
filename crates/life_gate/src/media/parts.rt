//! The parts of a media type's text.
ghost use Rattle.std.specs.Prelude.{◌≡◌, ◌↔◌, ◌∷◌, IsTrue, IfOk, MatchOption};
ghost use Rattle.std.specs.List.{AllPass};
ghost use Rattle.http_header.specs.Token.{is_token_byte, lowercase};
ghost use Rattle.life_gate.specs.MediaType.{slash, is_blank, without_suffix, AreParameters, HasKind, HasNoKind, HasSub, HasNoSub};
ghost use Rattle.life_gate.specs.Scanning.{IsFrontLen, BeginsWithNoSlash, HasNoPlus, IsLastPlus};

use http_header::is_token_char;
use life_core::{Got, Text};
use std::alloc::Global;

/// How many blanks stand at the front.
fn blank_len(text: &[u8]) -> usize
    ensures { IsFrontLen is_blank text.now result }
{
    text.iter()
        .position(|b| *b != b' ' && *b != b'\t')
        .unwrap_or(text.len())
}

/// How many bytes of a token stand at the front.
fn token_len(text: &[u8]) -> usize
    ensures { IsFrontLen is_token_byte text.now result }
{
    text.iter()
        .position(|b| !is_token_char(*b))
        .unwrap_or(text.len())
}

/// What stands after a slash.
fn after_slash(text: &[u8]) -> Option<&[u8]>
    ensures { MatchOption result (BeginsWithNoSlash text.now)
        (λ rest. text.now ≡ slash ∷ rest.now) }
{
    match text {
        [b'/', rest @ ..] => Some(rest),
        _ => None,
    }
}

/// The token before a slash, with blanks before it, and what stands after the slash.
pub fn kind_part(text: &[u8]) -> Option<(&[u8], &[u8])>
    ensures { MatchOption result (HasNoKind text.now)
        (λ found. HasKind text.now found.0.now found.1.now) }
{
    let (_, text) = text.split_at(blank_len(text));
    let (kind, text) = text.split_at(token_len(text));
    if kind.is_empty() {
        return None;
    }
    match after_slash(text) {
        Some(rest) => Some((kind, rest)),
        None => None,
    }
}

/// Whether nothing stands here, or parameters.
fn are_parameters(text: &[u8]) -> bool
    ensures { IsTrue result ↔ AreParameters text.now }
{
    match text.first() {
        Some(byte) => *byte == b';',
        None => true,
    }
}

/// The token at the front, after which only blanks and parameters come.
pub fn sub_part(text: &[u8]) -> Option<&[u8]>
    ensures { MatchOption result (HasNoSub text.now) (λ sub. HasSub text.now sub.now) }
{
    let (sub, text) = text.split_at(token_len(text));
    let (_, text) = text.split_at(blank_len(text));
    if !sub.is_empty() && are_parameters(text) {
        return Some(sub);
    }
    None
}

/// The index of the last plus.
fn last_plus(token: &[u8]) -> Option<usize>
    ensures { MatchOption result (HasNoPlus token.now) (λ i. IsLastPlus token.now i) }
{
    token.iter().rposition(|b| *b == b'+')
}

/// The token without its suffix.
pub fn before_suffix(token: &[u8]) -> &[u8]
    ensures { result.now ≡ without_suffix token.now }
{
    let Some(end) = last_plus(token) else {
        return token;
    };
    if end == 0 {
        return token;
    }
    &token[..end]
}

/// The bytes of a token in ASCII lower case.
pub fn lowered(alloc: Global, token: &[u8]) -> Got<Text>
    requires { AllPass is_token_byte token.now }
    ensures { IfOk result (λ text. text ≡ lowercase token.now) }
{
    match str::from_utf8(token) {
        Ok(text) => {
            let text = text.to_ascii_lowercase(alloc)?;
            Text::copy(alloc, text.as_str())
        }
        Err(_) => unreachable!(),
    }
}
