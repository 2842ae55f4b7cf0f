//! Laws of the cut, and of promises, each the contract of a function that does nothing.

ghost use Rattle.ct_promise.specs.Promise.{KeptPromisesStand};
ghost use Rattle.ct_promise.specs.Laws.{CutsAreRead, ReadCutsAreThere, WrittenCutsAreThere, CutsAreWritten, OneCut, PuttingBack, OneTbs, OneKey};

/// The parts of each TBSCertificate with one extension of an identifier are read, and each cut that is read is present.
pub fn cuts_are_read()
    ensures read { CutsAreRead }
    ensures there { ReadCutsAreThere }
{}

/// A TBSCertificate without the extension is written, and it is the only one.
pub fn cuts_are_written()
    ensures there { WrittenCutsAreThere }
    ensures written { CutsAreWritten }
{}

/// No bytes have two cuts.
pub fn bytes_have_one_cut()
    ensures { OneCut }
{}

/// Putting the removed extension back in its position gives the bytes again.
pub fn putting_back()
    ensures { PuttingBack }
{}

/// No certificate has two TBSCertificates, and no TBSCertificate has two keys.
pub fn certificates_have_one_key()
    ensures tbs { OneTbs }
    ensures key { OneKey }
{}

/// If an audit path leads from the leaf that a timestamp embedded in a certificate promises to a root, that leaf is in each list with this
/// root, or two of the hashed strings collide. This is a law of every hash function with hashes of 32 bytes;
/// [`check_promise`](crate::check_promise) states it for SHA-256.
pub fn kept_promises_stand()
    ensures { KeptPromisesStand }
{}
