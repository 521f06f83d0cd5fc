ghost use Rattle.cspf_rows.specs.FieldTexts.{AreTextsRead};
ghost use Rattle.cspf_rows.specs.Steps.{AreStepsOfRows};
ghost use Rattle.cspf_rows.specs.Says.{AreRowsRead, SaysOneRow};
ghost use Rattle.cspf_rows.specs.RowRefusals.{AreRowsRefused, IsRefusedOnce};
ghost use Rattle.cspf_rows.specs.Written.{ArePutsReadBack, AreDropsReadBack, AreNodesReadBack, AreEndsReadBack, AreAsksReadBack};

use cspf_addr::{
    addresses_are_spelled_once, hop_lists_are_read_back, masks_are_spelled,
    numbers_are_spelled_once,
};
use cspf_ero::objects_are_read;
use cspf_model::fields_of_links_and_requests;

/// The laws of field texts, on which the laws of rows rest.
fn texts_are_read()
    ensures { AreTextsRead }
{
    numbers_are_spelled_once();
    addresses_are_spelled_once();
    masks_are_spelled();
    objects_are_read();
    fields_of_links_and_requests();
}

/// Law: a `csv` record is read as a row exactly if the record says this row. A record says at most
/// one row.
pub fn rows_are_read()
    ensures read { AreRowsRead }
    ensures one { SaysOneRow }
{
    texts_are_read();
}

/// Law: the record that is written for a row is read as that row.
pub fn rows_are_read_back()
    ensures puts { ArePutsReadBack }
    ensures drops { AreDropsReadBack }
    ensures nodes { AreNodesReadBack }
    ensures ends { AreEndsReadBack }
    ensures asks { AreAsksReadBack }
{
    texts_are_read();
    hop_lists_are_read_back();
}

/// Law: the reader refuses a record exactly with the error of the first check that fails
/// (`IsRefused`). A record has at most one such error.
pub fn rows_are_refused()
    ensures refused { AreRowsRefused }
    ensures one { IsRefusedOnce }
{
    texts_are_read();
}

/// Law: the row of a change asks for this change, and rows that ask for the same step are equal.
pub fn rows_have_one_step()
    ensures { AreStepsOfRows }
{}
