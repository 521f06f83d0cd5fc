ghost use Rattle.cspf_rows.specs.JournalLaws.{AreTextsCut, AreJournalsReadBack, IsOneJournal};

use crate::laws::rows_are_read_back;
use cspf_addr::masks_are_spelled;

/// Law: the text of a list of batches is cut into exactly the records of these batches. It is read
/// as a clean journal of exactly these batches. The batches have to be numbered 1, 2, 3 and so on,
/// and to have at most `MOST_ROWS` rows together.
pub fn journals_are_read_back()
    ensures cut { AreTextsCut }
    ensures back { AreJournalsReadBack }
{
    rows_are_read_back();
    masks_are_spelled();
}

/// Law: a journal has only one reading. If the same records are read as two lists of batches, the
/// two lists are the same. Both readings are clean, or both are torn.
pub fn journals_are_one()
    ensures { IsOneJournal }
{}
