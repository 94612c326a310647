//! The laws of certificates' texts. The functions state them, and have no code that runs.
ghost use Rattle.emp_cert_text.specs.Laws.{CourseIsCerts, OneCertFault};

/// What stands line by line to the end is the text of a certificate, of one alone, and each certificate's text stands so.
pub fn course_is_certs()
    ensures { CourseIsCerts }
{}

/// A text that is no certificate's has one fault, memory aside.
pub fn one_cert_fault()
    ensures { OneCertFault }
{}
