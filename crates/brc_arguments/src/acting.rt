ghost use Rattle.std.specs.Prelude.{◌≡◌, ◌≢◌, ◌≤◌};
ghost use Rattle.std.specs.List.{list_any};
ghost use Rattle.brc_report.specs.declared.paint.Paint.TheVariants.{Plain};
ghost use Rattle.brc_arguments.specs.Acts.{Ends, Stops, IsRefused};
ghost use Rattle.brc_arguments.specs.Acts.{asks_for_c, asks_for_counts, asks_for_run, of_command};
ghost use Rattle.clap.specs.Words.{kind_of};
ghost use Rattle.clap.specs.declared.error.kind.ErrorKind.TheVariants.{OutOfMemory};

use crate::color::ColorChoice;
use crate::command::parse;
use crate::not_asked::NotAsked;
use crate::request::Request;
use brc_c_command::judge_c;
use brc_command::{
    Load, NoTerminal, Save, StepFault, Stop, Terminal, check_files, execute_counted, execute_on,
    execute_unchecked, write_stop,
};
use brc_lang::write_bytes;
use brc_run::System;
use clap::Error;
use clap::error::ErrorKind;
use std::alloc::Global;
use std::convert::AsStr;
use std::io::Write;

/// The status of a wrong command line, and of a call for help.
const USAGE: u8 = 2;

/// Carries out a command line, whose first word is the program's own name, and returns the exit status.
///
/// The status is 2 for a wrong command line or a call for help, 3 if memory is refused, and otherwise that of
/// `execute`, `check_files` or `judge_c`. If it isn't 0, standard error has the reason, unless the object of a file or
/// the lines about C files give it. After a run with `--counts` it has how often the threads have met. An error of
/// standard error is ignored. Nobody watches: no text is coloured, whatever `--color` says, and no progress is shown.
pub fn act<R: System, S: AsStr, L: Load + Save, W: Write, E: Write>(
    rt: &R,
    alloc: Global,
    words: &[S],
    load: &mut L,
    out: &mut W,
    err: &mut E,
) -> u8
    ensures known { result ≤ 3 }
    ensures done { result ≡ 0 → Ends (list_any (λ word. asks_for_counts (S.text word)) words.now)
        (list_any (λ word. asks_for_run (S.text word)) words.now)
        (of_command (λ name. asks_for_c (S.text name)) words.now)
        (L.may_give load.old) (L.may_lack load.old) Plain (W.contents out.old) (W.contents out.new)
        (E.contents err.old) (E.contents err.new) result }
    ensures stopped { result ≢ 0 → Stops (list_any (λ word. asks_for_run (S.text word)) words.now)
        (of_command (λ name. asks_for_c (S.text name)) words.now)
        (L.may_give load.old) (L.may_lack load.old) Plain (W.contents out.old) (W.contents out.new)
        (E.contents err.old) (E.contents err.new) result }
{
    act_on(rt, alloc, words, load, &mut NoTerminal, out, err)
}

/// Does what `act` does, before somebody at a terminal. Its texts have the terminal's colours: `color_of` says which
/// terminal the words ask for.
pub fn act_on<R: System, S: AsStr, L: Load + Save, T: Terminal, W: Write, E: Write>(
    rt: &R,
    alloc: Global,
    words: &[S],
    load: &mut L,
    terminal: &mut T,
    out: &mut W,
    err: &mut E,
) -> u8
    ensures known { result ≤ 3 }
    ensures done { result ≡ 0 → Ends (list_any (λ word. asks_for_counts (S.text word)) words.now)
        (list_any (λ word. asks_for_run (S.text word)) words.now)
        (of_command (λ name. asks_for_c (S.text name)) words.now)
        (L.may_give load.old) (L.may_lack load.old) (T.paint_of terminal.old)
        (W.contents out.old) (W.contents out.new) (E.contents err.old) (E.contents err.new) result }
    ensures stopped { result ≢ 0 → Stops (list_any (λ word. asks_for_run (S.text word)) words.now)
        (of_command (λ name. asks_for_c (S.text name)) words.now)
        (L.may_give load.old) (L.may_lack load.old) (T.paint_of terminal.old)
        (W.contents out.old) (W.contents out.new) (E.contents err.old) (E.contents err.new) result }
{
    match parse(alloc, words) {
        Ok(line) => match line.asked() {
            Some(Request::One(asked)) => execute_on(rt, alloc, &asked, load, terminal, out, err),
            Some(Request::Files(files, format)) => check_files(
                alloc, files, format, load, out, err,
            ),
            // Clap takes no other word for the option.
            Some(Request::Counted(asked)) if any_asks_for_counts(words) => {
                execute_counted(rt, alloc, &asked, load, terminal, out, err)
            }
            // Nor for these two.
            Some(Request::Unchecked(asked)) if any_asks_for_run(words) => {
                execute_unchecked(alloc, &asked, load, terminal, out, err)
            }
            // Nor another word for this command, or another place of it.
            Some(Request::C(asked)) if command_asks_for_c(words) => {
                judge_c(alloc, &asked, load, terminal, out, err)
            }
            _ => {
                let _ = write_bytes(b"error: a command is required\n", err);
                USAGE
            }
        },
        Err(NotAsked::Usage(error)) => refuse(&error, err),
        Err(NotAsked::TooMany) => {
            let _ = write_bytes(b"too many\n", err);
            USAGE
        }
    }
}

/// Returns when the texts of a command line have colours.
pub fn color_of<S: AsStr>(alloc: Global, words: &[S]) -> ColorChoice {
    match parse(alloc, words) {
        Ok(line) => line.color(),
        // Neither an error nor help has colours.
        Err(_) => ColorChoice::Never,
    }
}

/// Writes the error of the command line, or the help that it asks for, and returns the status.
fn refuse<E: Write>(error: &Error, err: &mut E) -> u8
    ensures refused { IsRefused (E.contents err.old) (E.contents err.new) result }
    ensures memory { kind_of error.now ≡ OutOfMemory → result ≡ 3 }
    ensures usage { kind_of error.now ≢ OutOfMemory → result ≡ 2 }
{
    if error.kind() == ErrorKind::OutOfMemory {
        let stop = Stop::Fault(StepFault::NoMemory);
        let _ = write_stop(&stop, err);
        stop.status()
    } else {
        // This text has its own line feeds.
        let _ = write!(err, "{error}");
        USAGE
    }
}

/// Returns whether one of the words asks for how often the threads of a run have met.
fn any_asks_for_counts<S: AsStr>(words: &[S]) -> bool
    ensures { result ≡ list_any (λ word. asks_for_counts (S.text word)) words.now }
{
    words
        .iter()
        .any(|word| asks_for_counts(word.as_str().as_bytes()))
}

fn asks_for_counts(word: &[u8]) -> bool
    ensures { result ≡ asks_for_counts word.now }
{
    let counts: &[u8] = b"--counts";
    word == counts
}

/// Returns whether one of the words asks for a run of a module that need not be accepted.
fn any_asks_for_run<S: AsStr>(words: &[S]) -> bool
    ensures { result ≡ list_any (λ word. asks_for_run (S.text word)) words.now }
{
    words
        .iter()
        .any(|word| asks_for_run(word.as_str().as_bytes()))
}

fn asks_for_run(word: &[u8]) -> bool
    ensures { result ≡ asks_for_run word.now }
{
    let schedule: &[u8] = b"--schedule";
    let unchecked: &[u8] = b"--unchecked";
    word == schedule || word == unchecked
}

/// Returns whether the command is the judgement of C files.
fn command_asks_for_c<S: AsStr>(words: &[S]) -> bool
    ensures { result ≡ of_command (λ name. asks_for_c (S.text name)) words.now }
{
    match words {
        [_, name, ..] => asks_for_c(name.as_str().as_bytes()),
        _ => false,
    }
}

fn asks_for_c(name: &[u8]) -> bool
    ensures { result ≡ asks_for_c name.now }
{
    let c: &[u8] = b"c";
    name == c
}
