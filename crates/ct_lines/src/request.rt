//! Requests and their requesters.

use ct_core::Query;

/// A request.
#[derive(Debug, PartialEq, Eq, Drop)]
pub enum Request {
    /// From the front with this number. A number from 16 on names a front that does not exist.
    Front(u64, FrontRequest),
    /// From the operator.
    Operator(OperatorRequest),
    /// From a reader of the frozen log.
    Frozen(FrozenRequest),
}

/// A front's request.
#[derive(Debug, PartialEq, Eq, Drop)]
pub enum FrontRequest {
    /// Submits a certificate, by its chain in DER, the end entity first.
    AddChain {
        chain: Vec<Vec<u8>>,
    },
    /// Submits a precertificate (RFC 6962, section 3.1): the SHA-256 of the issuer's public key, the TBSCertificate in DER without the
    /// poison extension, and the chain in DER, the precertificate first.
    AddPreChain {
        issuer_key_hash: [u8; 32],
        tbs: Vec<u8>,
        chain: Vec<Vec<u8>>,
    },
    /// Waits until a tree head of at least this size is published.
    AwaitSize {
        tree_size: u64,
    },
    /// Queries the published state.
    Ask(Query),
}

/// The operator's request.
#[derive(Clone, Copy, Debug, PartialEq, Eq)]
pub enum OperatorRequest {
    /// Settles `count` submissions of the front with number `from` at the timestamp `now`, in milliseconds.
    Sequence { from: u64, count: u64, now: u64 },
    /// Publishes a tree head at the timestamp `now`, in milliseconds.
    Publish { now: u64 },
    /// Ends the accepting of submissions.
    Shutdown,
    /// Ends a shift of the fronts at the timestamp `now`, in milliseconds.
    Shift { now: u64 },
}

/// A request of a reader of the frozen log.
#[derive(Debug, PartialEq, Eq, Drop)]
pub enum FrozenRequest {
    /// Queries the frozen state.
    Ask(Query),
    /// Checks a proof of inclusion.
    Audit(Audit),
}

/// A proof of inclusion that will be checked against the tree head of a size.
#[derive(Debug, PartialEq, Eq, Drop)]
pub struct Audit {
    /// The bytes of the leaf.
    pub leaf_input: Vec<u8>,
    /// The leaf's index.
    pub leaf_index: u64,
    /// The size of the tree.
    pub tree_size: u64,
    /// The audit path, from the leaf upwards.
    pub audit_path: Vec<[u8; 32]>,
}
