ghost use Rattle.std.specs.Prelude.{◌≤◌, All, IfSome, IfNone};
ghost use Rattle.cspf_work.specs.Strays.{IsFirstStray};

use crate::ServeError;
use cspf_publish::Answer;

/// Returns the error for the first answer whose version is below `least` or above `most`, if there
/// is one.
pub(crate) fn first_stray(list: &[Answer], least: u32, most: u32) -> Option<ServeError>
    ensures none { IfNone result (All (λ a. (least ≤ a.version) × (a.version ≤ most)) list.now) }
    ensures some { IfSome result (IsFirstStray list.now (λ v. (least ≤ v) × (v ≤ most))) }
{
    for index in 0..list.len() {
        let answer = &list[index];
        if answer.version < least || answer.version > most {
            return Some(ServeError::Unaccounted {
                index,
                version: answer.version,
            });
        }
    }
    None
}
