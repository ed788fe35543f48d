//! Laws about the definitions only.
ghost use Rattle.ngc_certificate_text.specs.ParsedPart.{IsOneWriting};

/// States that a text is read as a certificate of a version if and only if it is that certificate's
/// text. So no certificate has two texts of one version.
pub fn one_writing()
    ensures { IsOneWriting }
{}
