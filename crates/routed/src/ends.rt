//! How a run ends: its status, and with `--explain` a line that says why.

use crate::options::{Call, CommandOption, EXPLAIN};
use crate::refused_rows::explain_rows;
use crate::standard_error::{say, say_at, say_of, stop};
use crate::statuses::UNFIT;
use crate::stopped::{Ran, Stopped};
use cspf_questions::QuestionRunError;

/// Returns the status of a run. With `--explain` it first writes why the run stopped, or which row
/// of the run's files is refused. `options` are the command's options.
pub(crate) fn end(call: &Call<'_, '_>, ran: Ran, options: &[CommandOption]) -> u8 {
    let explain = call.has(EXPLAIN);
    match ran {
        Ok(status) => {
            if explain && status == UNFIT {
                explain_rows(call, options);
            }
            status
        }
        Err(Stopped::Said(status)) => status,
        Err(why) => {
            if explain {
                explain_stop(call, why);
            }
            stop(call.rt)
        }
    }
}

/// Writes why a run stopped.
fn explain_stop(call: &Call<'_, '_>, why: Stopped) {
    let rt = call.rt;
    match why {
        Stopped::Memory => say(rt, &"out of memory"),
        Stopped::Device(fault) => match call.words.get_str(fault.device) {
            Some(path) => say_at(rt, fault.device, path, &fault),
            None => say_of(rt, fault.device, &fault),
        },
        Stopped::Solve(error) => say(rt, &error),
        Stopped::Undecided => say(rt, &QuestionRunError::Undecided),
        Stopped::Stream(error) => say(rt, &error),
        Stopped::Run(error) => say(rt, &error),
        Stopped::Serve(error) => say(rt, &error),
        Stopped::Said(_) => {}
    }
}
