//! The part of a text that a torn end isn't part of: the text up to its last whole line that begins
//! with `end,`, `place,`, `release,` or `held,`.

ghost use Rattle.std.specs.Prelude.{◌≡◌, ◌==◌, position};
ghost use Rattle.cspf_book_run.specs.Settled.{is_settling, line_length, IsSettledPart};

/// The part of a text up to its last whole line that begins with `end,`, `place,`, `release,` or
/// `held,`. A line is whole if it has its line feed. Without such a line, the part is empty.
pub fn settled_part(text: &[u8]) -> &[u8]
    ensures { IsSettledPart text.now result.now }
{
    let mut rest = text;
    let mut at = 0;
    let mut settled = 0;
    while let Some(size) = line_length(rest) {
        let (line, more) = rest.split_at(size);
        at += size;
        if is_settling(line) {
            settled = at;
        }
        rest = more;
    }
    &text[..settled]
}

/// The length of the first line of a text with its line feed, or `None` if the text has no line feed.
fn line_length(text: &[u8]) -> Option<usize>
    ensures { result ≡ line_length text.now }
{
    match feed_place(text) {
        Some(at) => Some(at + 1),
        None => None,
    }
}

/// The index of the first line feed of a text, or `None` if the text has none.
fn feed_place(text: &[u8]) -> Option<usize>
    ensures { result ≡ position (λ byte. byte == 10) text.now }
{
    text.iter().position(|byte| *byte == b'\n')
}

/// Whether a line begins with `end,`, `place,`, `release,` or `held,`.
fn is_settling(line: &[u8]) -> bool
    ensures { result ≡ is_settling line.now }
{
    line.starts_with(b"end,")
        || line.starts_with(b"place,")
        || line.starts_with(b"release,")
        || line.starts_with(b"held,")
}
