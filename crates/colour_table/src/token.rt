//! The tokens of colours.

ghost use Rattle.std.specs.Prelude.{◌≡◌, ◌↔◌, IsTrue};
ghost use Rattle.std.specs.List.{list_all};
ghost use Rattle.colour_table.specs.Token.{IsToken, is_token, is_token_byte};

/// Whether each byte is a capital letter or a digit.
fn are_token_bytes(text: &[u8]) -> bool
    ensures { result ≡ list_all is_token_byte text.now }
{
    text.iter()
        .all(|byte| matches!(byte, b'A'..=b'Z' | b'0'..=b'9'))
}

/// Whether a text is a token: one to eight bytes of `A` to `Z` and `0` to `9`.
#[tactic(auto, unfolding(crate::specs::Token::is_token))]
pub(crate) fn is_token(text: &[u8]) -> bool
    ensures { result ≡ is_token text.now }
{
    matches!(text.len(), 1..=8) && are_token_bytes(text)
}
