//! What is told of the adapter to an editor that asks.

use crate::asked::Asked;
use crate::message::Message;
use std::alloc::AllocError;

// What is supported, but for what each adapter supports.
const SUPPORTED: [&str; 7] = [
    "supportsConfigurationDoneRequest",
    "supportsDataBreakpoints",
    "supportsDelayedStackTraceLoading",
    "supportsEvaluateForHovers",
    "supportsRestartRequest",
    "supportsStepBack",
    "supportsTerminateRequest",
];

/// Why an editor is not answered that counts lines or names files in another way than is done here.
pub fn unlike_here(asked: &Asked<'_>) -> Option<&'static str> {
    if !asked.flag("linesStartAt1", true) || !asked.flag("columnsStartAt1", true) {
        return Some("lines and columns count from 1 here");
    }
    if let Some("uri") = asked.text("pathFormat") {
        return Some("files are named by paths here");
    }
    None
}

/// The answer to `initialize`.
pub fn put_capabilities(message: &mut Message) -> Result<(), AllocError> {
    message.begin("body")?;
    for name in SUPPORTED {
        message.flag(name, true)?;
    }
    message.end()
}
