//! Certificates are refused.

use run_driver::{Ports, Row, Status, WHOLE, is_answered};
use std::alloc::{AllocError, Global};

/// Whether `check` and `explain` refuse the certificate with this line, whether it comes byte by byte, in sevens or whole.
pub(crate) fn is_refused(
    alloc: Global,
    certificate: &[u8],
    line: &str,
) -> Result<bool, AllocError> {
    for word in ["check", "explain"] {
        let row = Row {
            words: &[word],
            input: certificate,
            status: Status::Refused,
            text: line.as_bytes(),
        };
        for most in [1, 7, 65_536] {
            let ports = Ports {
                most_read: most,
                most_written: most,
                ..WHOLE
            };
            if !is_answered(alloc, &row, ports)? {
                return Ok(false);
            }
        }
    }
    Ok(true)
}
