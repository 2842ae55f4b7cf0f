//! Precertificates, written by hand from RFC 6962, sections 3.1, 3.2, 3.4 and 4.6. The root was computed with Python's hashlib. The key's
//! hash is 32 bytes 11, and the TBSCertificate is 41.

use crate::rows::{Row, Shown, right_rows};
use crate::settled_log::{asked, publish, settle, settle_submission};
use crate::submissions::{Submissions, is_pre_chain, submission};
use ct_codec::Refusal;
use ct_core::{Core, Query, Reply, Settled};
use std::test::*;

#[test]
fn precertificates_written(rt: HostRuntime) {
    let rows = "\
leaf-input copy precert 17 65 66 => Ok([0, 0, 0, 0, 0, 0, 0, 0, 0, 1, 0, 1, 17, 17, 17, 17, 17, 17, 17, 17, 17, 17, 17, 17, 17, 17, 17, 17, 17, 17, 17, 17, 17, 17, 17, 17, 17, 17, 17, 17, 17, 17, 17, 17, 0, 0, 1, 65, 0, 0])
identity copy precert 17 65 66 => Ok([0, 1, 17, 17, 17, 17, 17, 17, 17, 17, 17, 17, 17, 17, 17, 17, 17, 17, 17, 17, 17, 17, 17, 17, 17, 17, 17, 17, 17, 17, 17, 17, 17, 17, 0, 0, 1, 65])
extra-data copy precert 17 65 66 => Ok([0, 0, 1, 66, 0, 0, 0])
leaf-input copy precert 17 65 66;65 => Ok([0, 0, 0, 0, 0, 0, 0, 0, 0, 1, 0, 1, 17, 17, 17, 17, 17, 17, 17, 17, 17, 17, 17, 17, 17, 17, 17, 17, 17, 17, 17, 17, 17, 17, 17, 17, 17, 17, 17, 17, 17, 17, 17, 17, 0, 0, 1, 65, 0, 0])
identity copy precert 17 65 66;65 => Ok([0, 1, 17, 17, 17, 17, 17, 17, 17, 17, 17, 17, 17, 17, 17, 17, 17, 17, 17, 17, 17, 17, 17, 17, 17, 17, 17, 17, 17, 17, 17, 17, 17, 17, 0, 0, 1, 65])
extra-data copy precert 17 65 66;65 => Ok([0, 0, 1, 66, 0, 0, 4, 0, 0, 1, 65])";
    assert!(rt; right_rows(&rt, &mut Submissions, rows) == 6);
}

#[test]
fn what_is_signed_of_a_precertificate(rt: HostRuntime) {
    let rows = "\
key-hash precert 17 65 66 => Some([17, 17, 17, 17, 17, 17, 17, 17, 17, 17, 17, 17, 17, 17, 17, 17, 17, 17, 17, 17, 17, 17, 17, 17, 17, 17, 17, 17, 17, 17, 17, 17])
signed precert 17 65 66 => [65]
end-entity precert 17 65 66 => [66]
parts precert 17 65 66 => [[0, 0, 0, 0, 0, 0, 0, 0, 0, 1, 0, 1], [17, 17, 17, 17, 17, 17, 17, 17, 17, 17, 17, 17, 17, 17, 17, 17, 17, 17, 17, 17, 17, 17, 17, 17, 17, 17, 17, 17, 17, 17, 17, 17], [0, 0, 1], [65], [0, 0]]
same precert 17 65 66 precert 17 65 65;66 => Ok(true)
same precert 17 65 66 precert 34 65 66 => Ok(false)
same precert 17 65 66 precert 17 66 66 => Ok(false)";
    assert!(rt; right_rows(&rt, &mut Submissions, rows) == 7);
}

#[test]
fn refusals_of_precertificates(rt: HostRuntime) {
    let rows = "\
refusal precert-sizes 0 - => Some(EmptyChain)
refusal precert-sizes 0 1 => Some(EmptyCertificate)
refusal precert-sizes 16777216 0 => Some(CertificateTooLong)
refusal precert-sizes 1 0 => Some(EmptyCertificate)
refusal precert-sizes 1 1,16777216 => Some(CertificateTooLong)
refusal precert-sizes 1 1,16777213 => Some(ChainTooLong)
refusal precert-sizes 16777215 16777215,16777212 => None
refusal precert-sizes 1 1 => None";
    assert!(rt; right_rows(&rt, &mut Submissions, rows) == 8);
}

// A core that settles submissions and certificates.
#[derive(Drop)]
struct Settling<'a> {
    core: &'a mut Core,
}

// Settles the submission in a row at the timestamp 1.
fn settled(
    rt: &HostRuntime,
    core: &mut Core,
    ticket: u64,
    row: &mut Row<'_>,
) -> Result<Settled, Refusal> {
    let submission = submission(rt, row)?;
    settle_submission(rt, core, (0, ticket), submission, 1)
}

// Settles the certificate in a row at the timestamp 1.
fn certified(
    rt: &HostRuntime,
    core: &mut Core,
    ticket: u64,
    row: &mut Row<'_>,
) -> Result<Settled, Refusal> {
    let certificate = row.bytes(rt);
    settle(rt, core, (0, ticket), &certificate, 1)
}

impl Shown for Settling<'_> {
    // A row has a ticket, and a certificate or a submission. Or it has a timestamp, and the result is the root of the head.
    fn is_right(&mut self, rt: &HostRuntime, mut row: Row<'_>) -> bool {
        let kind = row.word();
        let number = row.number();
        match kind {
            "submission" => {
                let answer = settled(rt, self.core, number, &mut row);
                row.says(rt, &answer)
            }
            "certificate" => {
                let answer = certified(rt, self.core, number, &mut row);
                row.says(rt, &answer)
            }
            "publishes" => row.says(rt, &publish(rt, self.core, number).map(|head| head.root)),
            _ => false,
        }
    }
}

// Reports whether the extra data of leaf 0 is the precertificate B and no chain.
fn is_extra_of_the_first(rt: &HostRuntime, core: &Core) -> bool {
    let query = Query::EntryAndProof {
        leaf_index: 0,
        tree_size: 3,
    };
    match asked(rt, core, query) {
        Ok(Reply::EntryAndProof { entry, .. }) => is_pre_chain(
            rt,
            &entry.extra_data,
            Row::new("- => Ok(([66], []))"),
        ),
        _ => false,
    }
}

// Returns how many rows a core answers correctly, before the first that it does not.
fn settles(rt: &HostRuntime, core: &mut Core, rows: &str) -> u32 {
    right_rows(rt, &mut Settling { core }, rows)
}

// The root is that of three leaves at the timestamp 1: the leaf of the precertificate, the leaf of the certificate 41, and that of the
// TBSCertificate 41 under the key's hash of 32 bytes 22. It is sha256(01, sha256(01, sha256(00, leaf), sha256(00, leaf)), sha256(00,
// leaf)), with the strings joined.
#[test]
fn a_precertificate_beside_certificates(rt: HostRuntime) -> Result<(), Fail> {
    let rows = "\
submission 0 precert 17 65 66 => Ok(Settled { front: 0, ticket: 0, index: 0, first: true })
submission 1 precert 17 65 65 => Ok(Settled { front: 0, ticket: 1, index: 0, first: false })
certificate 2 65 => Ok(Settled { front: 0, ticket: 2, index: 1, first: true })
submission 3 precert 34 65 66 => Ok(Settled { front: 0, ticket: 3, index: 2, first: true })
publishes 2 => Ok([57, 255, 152, 66, 108, 221, 195, 220, 103, 107, 218, 101, 253, 18, 163, 187, 38, 61, 111, 150, 140, 138, 224, 27, 70, 226, 81, 131, 175, 72, 190, 220])";
    let mut core = Core::open(rt.alloc(), 0)?;
    assert!(rt; settles(&rt, &mut core, rows) == 5);
    assert!(rt; is_extra_of_the_first(&rt, &core));
    Ok(())
}

#[test]
fn a_written_precertificate_is_read(rt: HostRuntime) {
    let rows = "\
read-leaf precert 17 65 66;65 => Ok(Leaf { timestamp: 1, entry: Precert([17, 17, 17, 17, 17, 17, 17, 17, 17, 17, 17, 17, 17, 17, 17, 17, 17, 17, 17, 17, 17, 17, 17, 17, 17, 17, 17, 17, 17, 17, 17, 17], [65]), extensions: [] })
read-pre-chain precert 17 65 66;65 => Ok(([66], [[65]]))";
    assert!(rt; right_rows(&rt, &mut Submissions, rows) == 2);
}
