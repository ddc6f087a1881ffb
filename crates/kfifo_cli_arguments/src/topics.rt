//! What `kfifo explain` says of each fault and answer.
//!
//! The topics stand in five constants, each behind a function: what borrows more at once takes the check of borrows too
//! many steps.

pub(crate) mod answers;
pub(crate) mod arguments;
pub(crate) mod inputs;
pub(crate) mod statuses;
pub(crate) mod verdicts;

use crate::commands::{
    check, dispatch, draw, explain, import, judge, least, measure, record, replay, run,
};
use kfifo_cli_requests::HelpTexts;

/// The help of each command.
const HELPS: HelpTexts<'static> = HelpTexts {
    run: run::DETAILS,
    check: check::DETAILS,
    measure: measure::DETAILS,
    replay: replay::DETAILS,
    judge: judge::DETAILS,
    least: least::DETAILS,
    record: record::DETAILS,
    import: import::DETAILS,
    draw: draw::DETAILS,
    dispatch: dispatch::DETAILS,
    explain: explain::DETAILS,
};

/// The help of each command.
pub(crate) fn helps() -> HelpTexts<'static> {
    HELPS
}
