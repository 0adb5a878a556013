//! What faults are told as.

use std::fmt::Display;
use std::process::Abort;
use std::test::Fail;

/// Compares what a fault is told as.
pub(crate) fn expect_text(
    rt: &(impl Abort + AllocGlobal),
    fault: &impl Display,
    text: &str,
) -> Result<(), Fail> {
    let told = format!(in rt.alloc(); "{fault}")?;
    assert!(rt; told.as_str() == text);
    Ok(())
}
