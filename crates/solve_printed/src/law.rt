//! The law about the line that begins a certificate.

ghost use Rattle.solve_printed.specs.CertificateLine.{CertificatesBegin};

/// A text that is read as a report has a line that begins with the word `certificate`. So the line
/// at which a report without a log is refused always exists.
pub fn certificates_begin()
    ensures { CertificatesBegin }
{}
