//! Masks (sets of the 32 administrative groups), the text of a mask, and the reader of this text.

ghost use Rattle.std.specs.Prelude.{◌≡◌, ◌≤◌, ℕ, length, if◌then◌else◌, IfOk, OnErr};
ghost use Rattle.std.specs.Result.{result_ok};
ghost use Rattle.std.specs.String.{string_bytes};
ghost use Rattle.std.specs.Str.Parse.{digits_value};
ghost use Rattle.cspf_addr.specs.Numbers.{are_digits};
ghost use Rattle.cspf_addr.specs.MaskText.{mask_of, mask_text, SpellsMask, AreMasksRead, SpellsOneMask, AreMasksReadBack};

use crate::decimal::value;
use std::alloc::{AllocError, Global};
use std::marker::Model;
use thiserror::Error;

/// A set of administrative groups, with one bit for each group (RFC 3630 2.5.9). A mask has the
/// groups to which a link belongs, or the groups that an affinity of a request names (RFC 3209
/// 4.7.4).
#[derive(Clone, Copy, Debug, PartialEq, Eq)]
pub struct Mask(u32);

impl Model for Mask {
    ghost use Rattle.std.specs.Prelude.{ℕ};

    ghost Value = { ℕ };

    ghost view = { λ m. m.0 };

    ghost inverse = { λ n. record { 0 = n } };
}

/// Why a text isn't a mask.
#[derive(Clone, Copy, Debug, PartialEq, Eq, Error)]
pub enum MaskError {
    #[error("not a mask of up to eight hexadecimal digits after 0x")]
    NotAMask,
}

impl Mask {
    /// The mask with these bits. The least significant bit is for group 0.
    pub fn new(bits: u32) -> Self
        ensures { result ≡ bits }
    {
        Mask(bits)
    }

    /// The bits of the mask.
    pub fn bits(self) -> u32
        ensures { result ≡ self }
    {
        self.0
    }

    /// The mask that a text spells: `0x` and then one to eight hexadecimal digits, upper or lower
    /// case.
    pub fn parse(text: &[u8]) -> Result<Mask, MaskError>
        ensures value { result_ok result ≡ mask_of text.now }
        ensures ok { IfOk result (SpellsMask text.now) }
        ensures err { OnErr result ((n : ℕ) → SpellsMask text.now n → ⊥) }
        ensures only { (n : ℕ) → SpellsMask text.now n → result ≡ Ok n }
    {
        read_mask(text).ok_or(MaskError::NotAMask)
    }

    /// The text of the mask: `0x` and eight lower-case hexadecimal digits, as in `0x0000000a`.
    #[tactic(auto, using(std::proofs::lemmas::Fmt::hex_byte), unfolding(crate::specs::MaskText::mask_text))]
    pub fn text(self, alloc: Global) -> Result<String, AllocError>
        ensures value { IfOk result (λ text. string_bytes text ≡ mask_text self) }
        ensures read { IfOk result (λ text. mask_of (string_bytes text) ≡ Some self) }
    {
        let [a, b, c, d] = self.0.to_be_bytes();
        format!(in alloc; "0x{a:02x}{b:02x}{c:02x}{d:02x}")
    }
}

/// The mask that a text spells.
#[tactic(auto, unfolding(crate::specs::MaskText::mask_of))]
fn read_mask(text: &[u8]) -> Option<Mask>
    ensures { result ≡ mask_of text.now }
{
    let digits = text.strip_prefix(b"0x")?;
    if digits.is_empty() || digits.len() > 8 {
        return None;
    }
    word(digits)
}

/// The mask that up to eight hexadecimal digits spell.
fn word(digits: &[u8]) -> Option<Mask>
    requires { length digits.now ≤ 8 }
    ensures { result
        ≡ (if are_digits 16 digits.now then Some (digits_value 16 digits.now) else None) }
{
    let bits = value(digits, 16)?;
    Some(Mask(bits as u32))
}

/// Law: a text is read as the mask `n` exactly if it spells `n`. A text spells at most one mask. A
/// mask is read back from its text.
pub fn masks_are_spelled()
    ensures read { AreMasksRead }
    ensures one { SpellsOneMask }
    ensures back { AreMasksReadBack }
{}
