//! Makes the result of an audit from the findings of the lines, and from the list that says which
//! requests have a line.

ghost use Rattle.std.specs.Prelude.{◌≡◌, ◌++◌, ◌≤◌, List, ℕ, length, IfOk, OnOk};
ghost use Rattle.cspf_rows.specs.declared.limits.TheConstants.{MOST_ROWS};
ghost use Rattle.cspf_judge.specs.Audits.{faults_from, good_count, fault_at};
ghost use Rattle.cspf_judge.specs.Reading.{unnamed_faults};

use crate::audits::asks::Asks;
use crate::audits::faults::{Audit, AuditFault};
use crate::audits::finding::Finding;
use std::alloc::{AllocError, Global};

/// Makes the audit of lines that have these findings. `named` says for each request whether a line
/// has the request's id.
pub(crate) fn report<A: Asks>(
    alloc: Global,
    findings: &[Finding],
    requests: &[A],
    named: &[bool],
) -> Result<Audit, AllocError>
    requires most { length findings.now ≤ MOST_ROWS }
    requires each { length named.now ≡ length requests.now }
    ensures good { IfOk result (λ audit. audit.good ≡ good_count findings.now) }
    ensures faults { IfOk result (λ audit. audit.faults.items
        ≡ faults_from 1 findings.now ++ unnamed_faults A.spec.id requests.now named.now) }
{
    let mut faults = Vec::new(alloc);
    let good = report_lines(findings, &mut faults)?;
    report_requests(requests, named, &mut faults)?;
    Ok(Audit { good, faults })
}

/// Adds the fault of each line that has a fault. The result is the number of good lines: they
/// aren't skipped and have no fault.
fn report_lines(findings: &[Finding], faults: &mut Vec<AuditFault>) -> Result<u32, AllocError>
    requires most { length findings.now ≤ MOST_ROWS }
    ensures good { IfOk result (λ good. good ≡ good_count findings.now) }
    ensures faults { OnOk result (faults.new.items ≡ faults.old.items ++ faults_from 1 findings.now) }
{
    let mut good = 0;
    for (index, finding) in findings.iter().enumerate() {
        if *finding == Finding::Good {
            good += 1;
        }
        if let Some(fault) = fault_of(index as u32 + 1, *finding) {
            faults.push(fault)?;
        }
    }
    Ok(good)
}

/// The fault for a line with this number and this finding, or `None` if the finding isn't a fault.
fn fault_of(line: u32, finding: Finding) -> Option<AuditFault>
    ensures { result ≡ fault_at line finding }
{
    match finding {
        Finding::PassedOver | Finding::Good => None,
        Finding::Unread => Some(AuditFault::Unread { line }),
        Finding::Foreign => Some(AuditFault::Foreign { line }),
        Finding::Doubled => Some(AuditFault::Doubled { line }),
        Finding::NoVersion => Some(AuditFault::NoVersion { line }),
        Finding::Altered => Some(AuditFault::Altered { line }),
    }
}

/// Adds a fault for each request whose id no line has.
fn report_requests<A: Asks>(
    requests: &[A],
    named: &[bool],
    faults: &mut Vec<AuditFault>,
) -> Result<(), AllocError>
    requires each { length named.now ≡ length requests.now }
    ensures { OnOk result (faults.new.items
        ≡ faults.old.items ++ unnamed_faults A.spec.id requests.now named.now) }
{
    for (index, request) in requests.iter().enumerate() {
        if !named[index] {
            faults.push(AuditFault::Unanswered { id: request.id() })?;
        }
    }
    Ok(())
}
