//! Laws of names, each the contract of a function that does nothing.

ghost use Rattle.ct_names.specs.Laws.{CertificatesAreRead, BareCertificatesAreRead, CertificatesHaveOneReading, BeginningsAreRefused, BareBeginningsAreRefused};
ghost use Rattle.ct_names.specs.Laws.{CoveringIsByLabels, ReadCertificatesAreThere, NamesStayUnderTheCut, NamesAreOfTheTbs};

/// The names of each certificate in the grammar are read (RFC 5280, section 4.1).
pub fn certificates_are_read()
    ensures { CertificatesAreRead }
{}

/// The names of each TBSCertificate in the grammar are read.
pub fn bare_certificates_are_read()
    ensures { BareCertificatesAreRead }
{}

/// No bytes have two readings.
pub fn certificates_have_one_reading()
    ensures { CertificatesHaveOneReading }
{}

/// Each proper prefix of a certificate is refused, as `truncated in certificate`.
pub fn beginnings_are_refused()
    ensures { BeginningsAreRefused }
{}

/// Each proper prefix of a TBSCertificate is refused, as `truncated in tbs`.
pub fn bare_beginnings_are_refused()
    ensures { BareBeginningsAreRefused }
{}

/// A name covers a watched one if and only if it is that name or below it, or a wildcard over it, by labels (RFC 9525, section 6.3).
pub fn covering_is_by_labels()
    ensures { CoveringIsByLabels }
{}

/// Bytes that are read as a certificate are one in the grammar, with these names.
pub fn read_certificates_are_there()
    ensures { ReadCertificatesAreThere }
{}

/// A certificate has the names of its TBSCertificate. The TBSCertificate still has them if an extension other than subjectAltName is cut
/// out of it (RFC 6962, section 3.2). So the names that are found in an entry of a precertificate are those of the certificate.
pub fn names_stay_under_the_cut()
    ensures stay { NamesStayUnderTheCut }
    ensures whole { NamesAreOfTheTbs }
{}
