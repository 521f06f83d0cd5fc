ghost use Rattle.std.specs.Prelude.{◌≡◌, ◌≢◌, ◌^◌, ◌<◌, ◌∷◌, ◌++◌, ℕ, List, IfSome, IfNone, ◌==◌, position};
ghost use Rattle.std.specs.Fmt.{decimal};
ghost use Rattle.cspf_ero.specs.ReplyHead.{BeginsWithHead, HasNoHead};

use cspf_addr::number;

/// What a reply line begins with: the request that it answers, and the version of the database that
/// the answer is for.
#[derive(Clone, Copy, Debug, PartialEq, Eq)]
pub struct Head {
    /// The id of the request.
    pub id: u64,
    /// The version of the database.
    pub version: u32,
}

/// The id and the version that a reply line begins with: `ask`, the id, and `v` with the version,
/// each followed by a space. The result is `None` if the line doesn't begin like this. The call
/// allocates no memory.
pub fn reply_head(line: &[u8]) -> Option<Head>
    ensures some { IfSome result (BeginsWithHead line.now) }
    ensures none { IfNone result (HasNoHead line.now) }
{
    let (id, behind) = first_number(line.strip_prefix(b"ask ")?)?;
    let (version, _words) = first_number(behind.strip_prefix(b"v")?)?;
    let version = u32::try_from(version).ok()?;
    Some(Head { id, version })
}

/// The decimal number before the first space of a text, and the text after this space. The result
/// is `None` if there is no such number.
fn first_number(text: &[u8]) -> Option<(u64, &[u8])>
    ensures small { IfSome result (λ found. found.0 < 2 ^ 64) }
    ensures whole { IfSome result (λ found. text.now ≡ decimal found.0 ++ 32 ∷ found.1.now) }
    ensures only { IfSome result (λ found. (n : ℕ) (rest : List ℕ) → n < 2 ^ 64
        → text.now ≡ decimal n ++ 32 ∷ rest → (n ≡ found.0) × (rest ≡ found.1.now)) }
    ensures none { IfNone result ((n : ℕ) (rest : List ℕ) → n < 2 ^ 64
        → text.now ≢ decimal n ++ 32 ∷ rest) }
{
    let at = first_space(text)?;
    let n = number(&text[..at])?;
    Some((n, &text[at + 1..]))
}

/// The index of the first space of a text.
fn first_space(text: &[u8]) -> Option<usize>
    ensures { result ≡ position (λ byte. byte == 32) text.now }
{
    text.iter().position(|byte| *byte == b' ')
}
