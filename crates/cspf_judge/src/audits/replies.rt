//! Reads the head of each line of the replies, such as the word `ask`, an id and a version. The rest
//! of the line is compared later.

ghost use Rattle.std.specs.Prelude.{◌≡◌, ◌++◌, ◌∷◌, [], ◌<◌, ℕ, List, length, Some, OnOk, IfOk};
ghost use Rattle.std.specs.BTreeMap.{get};
ghost use Rattle.std.specs.Ordering.{nat_cmp};
ghost use Rattle.cspf_model.specs.Numbered.{NumberedChanges};
ghost use Rattle.cspf_judge.specs.Requests.{HaveOwnIdsBy};
ghost use Rattle.cspf_judge.specs.Reading.{ArePlaces, HasReadLines, IsReading};

use crate::audits::asks::Asks;
use crate::audits::claim::Claim;
use crate::audits::finding::Finding;
use crate::audits::lines::ReplyLine;
use crate::audits::words::is_passed_over;
use std::alloc::{AllocError, Global};
use std::collections::BTreeMap;

/// The findings of the lines that were read, and their claims (lines still to be compared with
/// right replies).
#[derive(Drop)]
pub(crate) struct ReplyFindings {
    /// The finding of each line. A line that is still to be compared with the right reply has the
    /// finding `Good` until then.
    pub(crate) findings: Vec<Finding>,
    /// The lines that are still to be compared with right replies.
    pub(crate) claims: Vec<Claim>,
    /// For each request, whether one of the lines that were read has the request's id.
    pub(crate) named: Vec<bool>,
}

/// The audit's result for a line before it compares the line with the right reply.
#[derive(Clone, Copy)]
enum Reading {
    /// The line has this finding, and needn't be compared with the right reply.
    Settled(Finding),
    /// The line is to be compared with the right reply. The fields are the index of the request and
    /// the version.
    Claims(usize, u32),
}

/// Reads the lines of the replies. `ids` maps the id of each request to the request's index, and
/// `last` is the highest version of the journal.
pub(crate) fn read_replies<A: Asks>(
    alloc: Global,
    lines: &[ReplyLine],
    requests: &[A],
    ids: &BTreeMap<u64, usize>,
    last: usize,
) -> Result<ReplyFindings, AllocError>
    requires places { ArePlaces A.spec.id ids.now requests.now }
    requires own { HaveOwnIdsBy A.spec.id requests.now }
    ensures { IfOk result (λ replies. (batches : List NumberedChanges) → length batches ≡ last
        → HasReadLines A.spec batches requests.now replies lines.now) }
{
    let named = vec![in alloc; false; requests.len()]?;
    let mut replies = ReplyFindings {
        findings: Vec::new(alloc),
        claims: Vec::new(alloc),
        named,
    };
    for line in lines {
        replies.take::<A>(alloc, line.text(), ids, last)?;
    }
    Ok(replies)
}

impl ReplyFindings {
    /// Adds the finding of the next line of the replies. A claim is also added if this line is the
    /// first one with a request's id and names a version of the journal. A claim says that the line
    /// is still to be compared with the right reply.
    fn take<A: Asks>(
        &mut self,
        alloc: Global,
        line: &[u8],
        ids: &BTreeMap<u64, usize>,
        last: usize,
    ) -> Result<(), AllocError>
        requires within { (id index : ℕ) → get nat_cmp ids.now id ≡ Some index
            → index < length self.old.named.items }
        ensures length { OnOk result (length self.new.named.items ≡ length self.old.named.items) }
        ensures read { OnOk result ((batches : List NumberedChanges) (requests : List A)
            (seen : List (List ℕ)) → length batches ≡ last → HaveOwnIdsBy A.spec.id requests
            → ArePlaces A.spec.id ids.now requests → HasReadLines A.spec batches requests self.old seen
            → HasReadLines A.spec batches requests self.new (seen ++ line.now ∷ [])) }
    {
        let at = self.findings.len();
        let finding = match read_reply::<A>(alloc, line, ids, last, &mut self.named)? {
            Reading::Settled(finding) => finding,
            Reading::Claims(request, version) => {
                self.claims.push(Claim {
                    line: at,
                    request,
                    version,
                })?;
                Finding::Good
            }
        };
        self.findings.push(finding)?;
        Ok(())
    }
}

/// Reads the head of a line. If the head has the id of a request, `named` is set to true at the
/// index of this request.
fn read_reply<A: Asks>(
    alloc: Global,
    line: &[u8],
    ids: &BTreeMap<u64, usize>,
    last: usize,
    named: &mut [bool],
) -> Result<Reading, AllocError>
    requires within { (id index : ℕ) → get nat_cmp ids.now id ≡ Some index
        → index < length named.old }
    ensures says { IfOk result (IsReading A.spec ids.now last line.now named.old named.new) }
    ensures length { length named.new ≡ length named.old }
{
    if is_passed_over(line) {
        return Ok(Reading::Settled(Finding::PassedOver));
    }
    let Some(head) = A::head(alloc, line)? else {
        return Ok(Reading::Settled(Finding::Unread));
    };
    let Some(request) = ids.get(&head.id).copied() else {
        return Ok(Reading::Settled(Finding::Foreign));
    };
    if named[request] {
        return Ok(Reading::Settled(Finding::Doubled));
    }
    named[request] = true;
    if head.version as usize > last {
        return Ok(Reading::Settled(Finding::NoVersion));
    }
    Ok(Reading::Claims(request, head.version))
}
