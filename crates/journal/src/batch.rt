// Commits behind the closed gate, written without a buffer: three writes each.
ghost use Rattle.std.specs.Prelude.{◌≡◌, ◌≤◌, ◌<◌, ◌+◌, ◌^◌, IsTrue, IfOk, OnOk, OnErr, length};
ghost use Rattle.std.specs.List.{AllByRecursion};
ghost use Rattle.outside_traits.specs.Faults.{HasCause, failed};
ghost use Rattle.journal.specs.Batches.{batch_writes, commit_writes, gate_before, pairs_of};
ghost use Rattle.journal.specs.Groups.{open_groups};
ghost use Rattle.journal.specs.Steps.{Does, StopsIn};

use crate::file::OPEN;
use crate::frame::head;
use crate::head::COMMIT;
use node_records::Pending;
use outside_traits::{Disk, Failed};

/// Writes commits one behind the other, each with the gate behind it, the last of them closed. Answers the place behind that gate.
pub fn write_commits<J: Disk>(disk: &mut J, start: u64, commits: &[Pending]) -> Result<u64, Failed>
    requires within { IsTrue J.is_known → start ≤ length (J.history disk.old).now.reads }
    requires short { AllByRecursion (λ commit. length commit.body < 2 ^ 32) commits.now }
    ensures end { IfOk result (λ end. end ≡ start + length (open_groups (pairs_of commits.now))) }
    ensures does { OnOk result (IsTrue J.is_known → Does (batch_writes start (pairs_of commits.now)) (J.history disk.old) (J.history disk.new)) }
    ensures stops { OnErr result (IsTrue J.is_known → StopsIn (batch_writes start (pairs_of commits.now)) (J.history disk.old) (J.history disk.new)) }
    ensures cause { HasCause failed (J.faults disk.old) (J.faults disk.new) result }
{
    let mut at = start;
    let mut rest = commits;
    while let Some((commit, after)) = rest.split_first() {
        let gate = gate_before(after);
        at = write_commit(disk, at, commit.number, commit.body.as_slice(), gate)?;
        rest = after;
    }
    Ok(at)
}

/// The gate behind a commit: open where one of these follows on it.
fn gate_before(after: &[Pending]) -> u8
    ensures { result ≡ gate_before (pairs_of after.now) }
{
    match after {
        [] => 0,
        _ => OPEN,
    }
}

/// Writes a commit behind its gate, and this byte as the next gate. Answers the place behind it.
fn write_commit<J: Disk>(
    disk: &mut J,
    at: u64,
    number: u32,
    body: &[u8],
    gate: u8,
) -> Result<u64, Failed>
    requires within { IsTrue J.is_known → at ≤ length (J.history disk.old).now.reads }
    requires short { length body.now < 2 ^ 32 }
    ensures end { IfOk result (λ end. end ≡ at + 10 + length body.now) }
    ensures within { IfOk result (λ end. IsTrue J.is_known → end ≤ length (J.history disk.new).now.reads) }
    ensures does { OnOk result (IsTrue J.is_known → Does (commit_writes at number body.now gate) (J.history disk.old) (J.history disk.new)) }
    ensures stops { OnErr result (IsTrue J.is_known → StopsIn (commit_writes at number body.now gate) (J.history disk.old) (J.history disk.new)) }
    ensures cause { HasCause failed (J.faults disk.old) (J.faults disk.new) result }
{
    disk.write_at(at, &head(COMMIT, number, body.len() as u32))?;
    let body_at = at + 9;
    disk.write_at(body_at, body)?;
    let gate_at = body_at + body.len() as u64;
    disk.write_at(gate_at, &[gate])?;
    Ok(gate_at + 1)
}
