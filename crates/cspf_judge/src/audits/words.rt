ghost use Rattle.std.specs.Prelude.{◌≡◌, ◌==◌, ◌↔◌, IsTrue, position};
ghost use Rattle.cspf_judge.specs.Findings.{first_word, IsPassedOver};

/// Whether the audit skips the line, because its first word is `version`, `applied` or `batch`.
pub(crate) fn is_passed_over(line: &[u8]) -> bool
    ensures { IsTrue result ↔ IsPassedOver line.now }
{
    let word = first_word(line);
    word == b"version".as_slice() || word == b"applied".as_slice() || word == b"batch".as_slice()
}

/// The bytes of a line before its first space, or the whole line if it has no space.
fn first_word(line: &[u8]) -> &[u8]
    ensures { result.now ≡ first_word line.now }
{
    match first_space(line) {
        Some(at) => &line[..at],
        None => line,
    }
}

/// The index of the first space of a line.
fn first_space(line: &[u8]) -> Option<usize>
    ensures { result ≡ position (λ byte. byte == 32) line.now }
{
    line.iter().position(|byte| *byte == b' ')
}
