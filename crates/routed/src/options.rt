//! The options of the commands.
ghost use Rattle.std.specs.Prelude.{◌<◌, ◌≤◌};
ghost use Rattle.cspf_publish.specs.declared.limits.TheConstants.{MOST_ASKERS};

use clap::{Arg, ArgAction, ArgMatches, Command, value_parser};
use cspf_questions::QuestionKinds;
use cspf_serve::{MOST_ASKERS, MOST_TREE_MEGABYTES, RunOptions, TREE_MEGABYTES, trees_in};
use std::alloc::{AllocError, Global};
use std::thread;
use std::thread::Threads;

/// The option that gives the journal's path. `live` and `serve` make this file.
pub const JOURNAL: &str = "journal";

/// The option that gives the path of the file of requests.
pub const REQUESTS: &str = "requests";

/// The option that gives the path of the file of batches to apply.
pub const UPDATES: &str = "updates";

/// The option that gives the path of the file of replies.
pub const REPLIES: &str = "replies";

/// The option that gives the path of the file of the rows that `book`, or `serve` with a book,
/// accepts.
pub const KEEP: &str = "keep";

/// The flag with which `serve` counts placements.
pub const BOOK: &str = "book";

/// The option that gives the path of the file of the rows with which `serve` begins its book.
pub const BEGIN: &str = "begin";

/// The flag with which `book` writes the compact stream that makes the same book.
pub const COMPACT: &str = "compact";

/// The flag to skip the rows after the last whole batch. In `book`, it also skips what follows the
/// last whole row about a placement.
pub const ACCEPT_TORN: &str = "accept-torn";

/// The flag with which a run writes why it stops.
pub const EXPLAIN: &str = "explain";

/// The option that gives the paths of the two files of a client.
pub const CLIENT: &str = "client";

/// The option that gives the path of a file with a list of clients.
pub const CLIENTS_FROM: &str = "clients-from";

/// The option that gives the number of workers.
const WORKERS: &str = "workers";

/// The option that limits the memory of the trees that the search keeps. Its value is in megabytes
/// of 2^20 bytes.
const TREES: &str = "trees";

/// The option that gives the most rows that clients sent ahead and that are answered at once.
const AT_ONCE: &str = "at-once";

/// The flag with which a client's files are opened again after a session.
pub const REOPEN: &str = "reopen";

/// The option that gives the path of the file of figures.
pub const FIGURES: &str = "figures";

/// The flag with which `except` rows are answered, or their lines judged.
pub const EXCEPT: &str = "except";

/// The flag with which `pair` rows are answered.
pub const PAIRS: &str = "pairs";

/// An option of a command.
#[derive(Clone, Copy)]
pub enum CommandOption {
    /// The journal to read.
    Journal,
    /// The journal to make.
    NewJournal,
    /// The batches to apply.
    Updates,
    /// The requests.
    Requests,
    /// The replies.
    Replies,
    /// The new file of the accepted rows.
    Keep,
    /// Whether `serve` has a book.
    Book,
    /// The file of the rows with which `serve` begins its book.
    Begin,
    /// The new file of the rows that a served book accepts.
    KeepServed,
    /// Whether the compact stream of a book is written.
    Compact,
    /// Whether to skip what follows the last whole batch, or the last whole row about a placement, of
    /// a book.
    AcceptTornBook,
    /// The two files of each client.
    Clients,
    /// A file that names the two files of each client.
    ClientsFrom,
    /// The number of workers.
    Workers,
    /// The most megabytes of memory that the trees of the search may use.
    Trees,
    /// The most rows that clients sent ahead and that are answered at once.
    AtOnce,
    /// Whether `except` rows are answered, or their lines judged.
    Except,
    /// Whether `pair` rows are answered.
    Pairs,
    /// Whether the files of a client are opened again after a session.
    Reopen,
    /// The file of figures.
    Figures,
    /// Whether to skip the rows after the last whole batch of a journal.
    AcceptTorn,
    /// Whether the run writes why it stops.
    Explain,
}

impl CommandOption {
    /// The option's name on the command line.
    pub(crate) fn name(self) -> &'static str {
        match self {
            CommandOption::Journal | CommandOption::NewJournal => JOURNAL,
            CommandOption::Updates => UPDATES,
            CommandOption::Requests => REQUESTS,
            CommandOption::Replies => REPLIES,
            CommandOption::Keep | CommandOption::KeepServed => KEEP,
            CommandOption::Book => BOOK,
            CommandOption::Begin => BEGIN,
            CommandOption::Compact => COMPACT,
            CommandOption::Clients => CLIENT,
            CommandOption::ClientsFrom => CLIENTS_FROM,
            CommandOption::Workers => WORKERS,
            CommandOption::Trees => TREES,
            CommandOption::AtOnce => AT_ONCE,
            CommandOption::Except => EXCEPT,
            CommandOption::Pairs => PAIRS,
            CommandOption::Reopen => REOPEN,
            CommandOption::Figures => FIGURES,
            CommandOption::AcceptTorn | CommandOption::AcceptTornBook => ACCEPT_TORN,
            CommandOption::Explain => EXPLAIN,
        }
    }

    /// The option's line of help.
    fn help(self) -> &'static str {
        match self {
            CommandOption::Journal => "The file of batches",
            CommandOption::NewJournal => "The file of batches to make",
            CommandOption::Updates => "The file of batches to apply",
            CommandOption::Requests => "The file of requests",
            CommandOption::Replies => "The file of replies",
            CommandOption::Keep => "The file to make of the rows that are accepted",
            CommandOption::Book =>
                "Take the rows of routed book, and count placements; with --keep",
            CommandOption::Begin => "The rows that the book begins with; with --book",
            CommandOption::KeepServed => {
                "The file to make of the rows of the book that are accepted; with --book"
            }
            CommandOption::Compact => "Write few rows that make the same book, and no other line",
            CommandOption::AcceptTornBook => {
                "Leave out what follows the last whole end, place, release or held row; with --compact"
            }
            CommandOption::Clients => {
                "The files of a client's requests and replies; once for each client"
            }
            CommandOption::ClientsFrom => "A file with a line IN=OUT for each further client",
            CommandOption::Workers => "How many workers answer, 1 to 64",
            CommandOption::Trees => {
                "The megabytes that trees of the search may take, 0 to 1024; no answer depends on them"
            }
            CommandOption::AtOnce => {
                "How many rows that clients sent ahead are answered at once, 1 to 64; by default the processors"
            }
            CommandOption::Except => "Take except rows, too",
            CommandOption::Pairs => "Take pair rows, too",
            CommandOption::Reopen => {
                "When a client's rows end, open its files again, for another session"
            }
            CommandOption::Figures => {
                "A file that gets what each client did, after each batch and each session"
            }
            CommandOption::AcceptTorn => "Leave out the rows after the last whole batch",
            CommandOption::Explain => {
                "Say on standard error why a run stops, or which row a file is refused for"
            }
        }
    }

    /// Whether the option gives a file whose rows may be refused.
    pub(crate) fn has_rows(self) -> bool {
        matches!(
            self,
            CommandOption::Journal | CommandOption::Updates | CommandOption::Requests
        )
    }

    /// The option in the form that `clap` uses.
    fn arg<'a>(self, alloc: Global) -> Result<Arg<'a>, AllocError> {
        let arg = named(alloc, self.name(), self.help());
        match self {
            CommandOption::Compact => arg.action(ArgAction::SetTrue).conflicts_with(KEEP),
            // `--compact` has to be given, but `clap` doesn't ask for an option beside one that it
            // can't be given with.
            CommandOption::AcceptTornBook => arg
                .action(ArgAction::SetTrue)
                .requires_arg(COMPACT)?
                .conflicts_with(KEEP),
            CommandOption::Book => Ok(arg.action(ArgAction::SetTrue).requires_arg(KEEP)?),
            CommandOption::Begin | CommandOption::KeepServed => {
                Ok(arg.value_name("FILE").requires_arg(BOOK)?)
            }
            other => Ok(other.alone(arg)),
        }
    }

    /// The option in the form that `clap` uses, if it may be given beside each other option.
    fn alone<'a>(self, arg: Arg<'a>) -> Arg<'a> {
        match self {
            CommandOption::Clients => arg.value_name("IN=OUT").action(ArgAction::Append),
            CommandOption::ClientsFrom | CommandOption::Keep | CommandOption::Figures => {
                arg.value_name("FILE")
            }
            CommandOption::Workers => workers(arg),
            CommandOption::Trees => trees(arg),
            CommandOption::AtOnce => at_once(arg),
            CommandOption::Except
            | CommandOption::Pairs
            | CommandOption::Reopen
            | CommandOption::AcceptTorn
            | CommandOption::Explain => { arg.action(ArgAction::SetTrue) }
            _ => required(arg, "FILE"),
        }
    }
}

/// An option with this name and this line of help.
fn named<'a>(alloc: Global, name: &'static str, help: &'static str) -> Arg<'a> {
    Arg::new(alloc, name).long(name).help(help)
}

/// Makes the option required, and sets the name that help shows for its value.
fn required<'a>(arg: Arg<'a>, value: &'static str) -> Arg<'a> {
    arg.value_name(value).required(true)
}

/// Makes the option take a number of workers.
fn workers<'a>(arg: Arg<'a>) -> Arg<'a> {
    arg.value_name("N")
        .value_parser(value_parser!(u8).range(1..=MOST_ASKERS as i64))
        .default_value("1")
}

/// Makes the option take a number of megabytes.
fn trees<'a>(arg: Arg<'a>) -> Arg<'a> {
    arg.value_name("MB")
        .value_parser(value_parser!(u16).range(0..=MOST_TREE_MEGABYTES as i64))
        .default_value("64")
}

/// Makes the option take a number of rows.
fn at_once<'a>(arg: Arg<'a>) -> Arg<'a> {
    arg.value_name("N")
        .value_parser(value_parser!(u8).range(1..=MOST_ASKERS as i64))
}

/// The command that a command line names.
#[derive(Clone, Copy)]
pub enum Asked {
    Solve,
    Batch,
    Live,
    Serve,
    Snapshot,
    Audit,
    Book,
}

/// The help texts and the options of a command.
#[derive(Clone, Copy)]
pub struct CommandText {
    pub asked: Asked,
    pub name: &'static str,
    pub about: &'static str,
    pub help: &'static str,
    pub options: &'static [CommandOption],
}

impl CommandText {
    /// The command in the form that `clap` uses.
    pub(crate) fn command<'a>(&self, alloc: Global) -> Result<Command<'a>, AllocError> {
        let mut command = Command::new(alloc, self.name)
            .about(self.about)
            .after_help(self.help);
        for option in self.options {
            command = command.arg(option.arg(alloc)?)?;
        }
        Ok(command)
    }
}

/// A call of a command: the process `rt`, and the arguments `words`, which follow the command's
/// name.
#[derive(Clone, Copy)]
pub struct Call<'m, 'a> {
    pub rt: &'m HostRuntime,
    pub words: &'m ArgMatches<'a>,
}

impl<'m, 'a> Call<'m, 'a> {
    /// The value of an option, or an empty text if the option isn't given. A required option is
    /// always given: `clap` refuses a command line without it.
    pub(crate) fn value(&self, option: &str) -> &'a str {
        self.words.get_str(option).unwrap_or("")
    }

    /// Whether an option is given.
    pub(crate) fn gives(&self, option: &str) -> bool {
        self.words.get_str(option).is_some()
    }

    /// Whether a flag is set.
    pub(crate) fn has(&self, flag: &str) -> bool {
        self.words.get_flag(flag)
    }

    /// The number of workers that answer requests. `clap` refuses a number outside 1 to
    /// `MOST_ASKERS`.
    pub(crate) fn workers(&self) -> usize
        ensures { (0 < result) × (result ≤ MOST_ASKERS) }
    {
        let count = self.words.get_one::<u8>(WORKERS).unwrap_or(1) as usize;
        count.clamp(1, MOST_ASKERS)
    }

    /// The most trees of the search that the run may keep.
    pub(crate) fn trees(&self) -> usize {
        trees_in(self.words.get_one::<u16>(TREES).unwrap_or(TREE_MEGABYTES))
    }

    /// The most rows that clients sent ahead and that are answered at once. By default there is one
    /// for each processor that the program may use.
    pub(crate) fn at_once<T: Threads>(&self, handle: &T) -> usize {
        match self.words.get_one::<u8>(AT_ONCE) {
            Some(count) => count as usize,
            None => match thread::available_parallelism(handle) {
                Ok(processors) => processors.get(),
                Err(_) => 1,
            },
        }
    }

    /// Which kinds of questions are answered.
    pub(crate) fn kinds(&self) -> QuestionKinds {
        QuestionKinds {
            except: self.has(EXCEPT),
            pair: self.has(PAIRS),
        }
    }

    /// The options of the run: the most trees of the search that it may keep.
    pub(crate) fn run_options(&self) -> RunOptions {
        RunOptions {
            trees: self.trees(),
        }
    }
}
