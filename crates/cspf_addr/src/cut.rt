ghost use Rattle.std.specs.Prelude.{◌≡◌, ◌==◌, position};
ghost use Rattle.cspf_addr.specs.AddressText.{text_before, text_after};

/// The part of a text before its first byte `mark`, and the part after this byte. If no byte is
/// `mark`, the parts are the whole text and the empty text.
pub(crate) fn cut(text: &[u8], mark: u8) -> (&[u8], &[u8])
    ensures before { result.0.now ≡ text_before mark text.now }
    ensures after { result.1.now ≡ text_after mark text.now }
{
    match place(text, mark) {
        Some(at) => (&text[..at], &text[at + 1..]),
        None => (text, &text[text.len()..]),
    }
}

/// The index of the first byte `mark`, or `None` if no byte is `mark`.
fn place(text: &[u8], mark: u8) -> Option<usize>
    ensures { result ≡ position (λ byte. byte == mark) text.now }
{
    text.iter().position(|byte| *byte == mark)
}
