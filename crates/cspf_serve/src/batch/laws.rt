ghost use Rattle.cspf_serve.specs.BatchLaws.{AreLinesOfAScript};

use cspf_model::absorbing;
use cspf_rows::journals_are_one;

/// Law: suppose that no rows follow the batches of a journal, that no row of the requests is
/// refused, and that all batches fit. A run over both streams writes the same lines as a run over
/// one stream: the journal's rows, followed by the rows of the requests.
pub fn lines_of_a_script()
    ensures { AreLinesOfAScript }
{
    // Laws: the same records are never read as two different journals. One more batch makes its
    // changes in the database of the batches before it.
    journals_are_one();
    absorbing();
}
