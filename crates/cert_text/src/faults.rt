use thiserror::Error;

/// Why bytes are read as no certificate.
#[derive(Clone, Copy, PartialEq, Eq, Debug, Error)]
pub enum CertFault {
    /// The lines before this one, counted from 1, begin the text of a certificate. With it they begin none, or the bytes end
    /// before it where the text must go on.
    #[error("line {line} is not a certificate's")]
    BadText { line: u32 },
    /// Want of memory.
    #[error("out of memory")]
    Memory,
}
