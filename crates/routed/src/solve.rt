//! `routed solve` answers the rows of standard input. Each line is written as soon as it is known.

use crate::devices::{INPUT, OUTPUT, flushed};
use crate::noted::Noted;
use crate::options::{Asked, Call, CommandOption, CommandText};
use crate::stopped::{Ran, Stopped};
use cspf_questions::{AnswersNone, Kinds, run_questions};
use cspf_serve::run_solve_with;
use std::io;

/// The command with its options.
pub const COMMAND: CommandText = CommandText {
    asked: Asked::Solve,
    name: "solve",
    about: "Answers the rows of standard input on standard output",
    help: HELP,
    options: &[
        CommandOption::Trees,
        CommandOption::Except,
        CommandOption::Pairs,
        CommandOption::Explain,
    ],
};

/// The help text below the options of `solve`, and below the options of the program.
pub const HELP: &str = "\
Rows of standard input, fields separated by commas:
  put,router,local,neighbor,remote,metric,group,u0,u1,u2,u3,u4,u5,u6,u7
      adds or replaces a link; u0 to u7 are its unreserved bandwidth at the priorities 0 to 7,
      in bytes per second
  drop,router,local
      removes a link
  node,router,transit
      with transit 0 no route passes through the router any more, with 1 routes may again
  end,number,count
      applies the changes since the last end row as one batch, which makes version number;
      count is how many they are
  ask,id,from,to,setup,bandwidth,exclude_any,include_any,include_all,hops
      asks for the least admissible route; bandwidth is in bytes per second, hops may be empty
  except,id,from,to,setup,bandwidth,exclude_any,include_any,include_all,hops,except
      with --except: the same, without the links that its last field names by prefixes with a letter:
      10.0.12.0/31i by the addresses of interfaces, 2.2.2.2/32r by a router
  pair,id,from,to,setup,bandwidth,exclude_any,include_any,include_all,kind
      with --pairs: asks for the two ways of least total cost that share no circuit (kind circuits),
      or no circuit and no router but the ends (kind routers)

Lines of standard output, each as soon as it is known:
  version V                  a batch is accepted
  ask ID vV route ..         a request is answered at version V; also none, unknown-from, unknown-to
  except ID vV route ..      the same for an except row
  pair ID vV pair ..         the same for a pair row; also each by ROUTER,LOCAL, the link that each way
                             has, and each through ROUTER, the router that each way passes
  row N refused: ..          and batch N refused: .., unended K, too many rows

Rows may be of any length that fits in memory. Standard output must be in blocking mode. If its reader
exits early (routed solve | head -1), the status is 3. A file that reaches the limit of its size
(ulimit -f) ends the program by the signal XFSZ, or with status 3 after trap '' XFSZ in the shell.

Status:
  0  everything was accepted
  1  the command line was refused
  2  a row or a batch was refused, or there were more than 1,000,000 rows
  3  out of memory, or a device failed; the last line of standard error is routed: stopped, and
     with --explain the line before it says why

Example: the rows
  put,1.1.1.1,10.0.12.1,2.2.2.2,10.0.12.2,10,0x1,5,5,5,5,5,5,5,5
  put,2.2.2.2,10.0.12.2,1.1.1.1,10.0.12.1,10,0x1,5,5,5,5,5,5,5,5
  end,1,2
  ask,7,1.1.1.1,2.2.2.2,0,5,0x0,0x0,0x0,
are answered by
  version 1
  ask 7 v1 route cost=10 hops=1 again=no ero=000c140101080a000c022000";

/// Answers the rows of standard input on standard output. The lines that were written before a
/// fault remain.
pub(crate) fn answer(call: &Call<'_, '_>) -> Ran {
    let rt = call.rt;
    let mut reader = Noted::new(INPUT, rt.reader());
    let mut out = Noted::new(OUTPUT, io::writer(rt));
    let options = call.run_options();
    let kinds = call.kinds();
    let ran = if kinds == AnswersNone::value() {
        match run_solve_with(rt.alloc(), &mut reader, &mut out, options) {
            Ok(summary) => Ok(summary),
            Err(error) => Err(Stopped::Solve(error)),
        }
    } else {
        match run_questions(rt.alloc(), &mut reader, &mut out, options, kinds) {
            Ok(summary) => Ok(summary),
            Err(error) => Err(Stopped::from(error)),
        }
    };
    match ran {
        Ok(summary) => flushed(&mut out, Ok(summary.status())),
        Err(stopped) => Err(stopped.by(reader.fault(), out.fault())),
    }
}
