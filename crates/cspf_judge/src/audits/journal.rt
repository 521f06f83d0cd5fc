//! Reads a journal, and makes a plan for each of its batches. The batches have to be lawful: each
//! fits the database of the batches before it.

ghost use Rattle.std.specs.Prelude.{◌≡◌, ◌≤◌, [], length, IfOk, IfErr, OnOk, IfSome};
ghost use Rattle.std.specs.Vec.{vec_capacity};
ghost use Rattle.cspf_model.specs.Changes.{AreLawful, no_links};
ghost use Rattle.cspf_model.specs.Refusals.{IsFirstUnfit};
ghost use Rattle.cspf_rows.specs.Records.{rows_of};
ghost use Rattle.cspf_rows.specs.declared.limits.TheConstants.{MOST_ROWS};
ghost use Rattle.cspf_judge.specs.AuditErrors.{IsLawfulJournal};
ghost use Rattle.cspf_judge.specs.ErrorNames.{IsJournalFault, IsUnfitBatch};
ghost use Rattle.cspf_judge.specs.Reading.{ArePlansUpTo};

use crate::AuditError;
use cspf_db::{Plan, Table, UnfitBatch};
use cspf_model::{Batch, absorbing, lawful_batches};
use cspf_rows::{Journal, Rest, read_journal};
use std::alloc::Global;
use std::io::Read;

/// The batches of a journal, and a plan for each batch. The plan says what its batch changes in the
/// table that the batches before it make.
#[derive(Drop)]
pub(crate) struct LawfulJournal {
    /// The batches.
    pub(crate) batches: Vec<Batch>,
    /// The plan of each batch, in the order of the batches.
    pub(crate) plans: Vec<Plan>,
}

/// Reads the batches of a journal. Each batch has to fit the database of the batches before it, and no
/// rows may follow the last batch.
pub(crate) fn lawful_journal<R: Read + Drop>(
    alloc: Global,
    journal: R,
) -> Result<LawfulJournal, AuditError>
    ensures whole { IfOk result (λ lawful. IfSome (R.remaining journal) (λ bytes.
        IsLawfulJournal (rows_of bytes) lawful.batches.items)) }
    ensures planned { IfOk result (λ lawful.
        ArePlansUpTo lawful.batches.items lawful.plans.items (length lawful.batches.items)) }
    ensures most { IfOk result (λ lawful. length lawful.batches.items ≤ MOST_ROWS) }
    ensures err { IfErr result (λ why. IfSome (R.remaining journal) (λ bytes.
        IsJournalFault (rows_of bytes) why)) }
{
    let Journal { batches, rest } = read_journal(alloc, journal)?;
    if rest == Rest::Torn {
        let after = batches.len() as u32;
        return Err(AuditError::Torn { after });
    }
    let plans = plan_all(alloc, &batches)?;
    Ok(LawfulJournal { batches, plans })
}

/// Makes a plan for each batch. The plan says what the batch changes in the table that the batches
/// before it make. The first batch that doesn't fit that table is refused.
fn plan_all(alloc: Global, batches: &[Batch]) -> Result<Vec<Plan>, AuditError>
    ensures lawful { OnOk result (AreLawful batches.now) }
    ensures planned { IfOk result (λ plans. ArePlansUpTo batches.now plans.items (length batches.now)) }
    ensures err { IfErr result (IsUnfitBatch batches.now) }
{
    let mut table = Table::new(alloc)?;
    let mut plans = Vec::with_capacity(alloc, batches.len())?;
    plan_each(&mut table, batches, &mut plans)?;
    Ok(plans)
}

/// Makes a plan for each batch. The plan says what the batch changes in the table that the batches
/// before it make. The call fails with the first batch that doesn't fit that table. The plans are
/// added to an empty list that has capacity for all of them, so the call allocates no memory.
fn plan_each(table: &mut Table, batches: &[Batch], plans: &mut Vec<Plan>) -> Result<(), UnfitBatch>
    requires empty { table.old ≡ no_links }
    requires none { plans.old.items ≡ [] }
    requires room { length batches.now ≤ vec_capacity plans.old }
    ensures lawful { OnOk result (AreLawful batches.now) }
    ensures planned { OnOk result (ArePlansUpTo batches.now plans.new.items (length batches.now)) }
    ensures err { IfErr result (λ unfit. IsFirstUnfit batches.now unfit.number unfit.refusal) }
{
    // Laws: the next batch makes its changes in the database of the batches before it. If some
    // batches are lawful, and the next batch fits their database, the batches with the next one are
    // also lawful.
    absorbing();
    lawful_batches();
    for batch in batches {
        let plan = match table.plan(batch) {
            Ok(plan) => plan,
            Err(refusal) => {
                let number = batch.number;
                return Err(UnfitBatch { number, refusal });
            }
        };
        table.absorb_planned(batch, plan);
        plans.push_reserved(plan);
    }
    Ok(())
}
