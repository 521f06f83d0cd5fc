ghost use Rattle.std.specs.Prelude.{◌≤◌, length, IfOk, IfErr, OnOk};
ghost use Rattle.cspf_rows.specs.declared.limits.TheConstants.{MOST_ROWS};
ghost use Rattle.cspf_judge.specs.Requests.{HaveOwnIdsBy};
ghost use Rattle.cspf_judge.specs.Reading.{ArePlaces, IsIdFault};

use crate::AuditError;
use crate::audits::asks::Asks;
use std::alloc::Global;
use std::collections::BTreeMap;

/// Maps the id of each request to the request's index. Two requests with the same id are refused.
pub(crate) fn index_ids<A: Asks>(
    alloc: Global,
    requests: &[A],
) -> Result<BTreeMap<u64, usize>, AuditError>
    requires most { length requests.now ≤ MOST_ROWS }
    ensures places { IfOk result (λ ids. ArePlaces A.spec.id ids requests.now) }
    ensures own { OnOk result (HaveOwnIdsBy A.spec.id requests.now) }
    ensures err { IfErr result (IsIdFault A.spec.id requests.now) }
{
    let mut ids = BTreeMap::new(alloc);
    for (index, request) in requests.iter().enumerate() {
        if ids.insert(request.id(), index)?.is_some() {
            let row = index as u32 + 1;
            return Err(AuditError::SameId { row });
        }
    }
    Ok(ids)
}
