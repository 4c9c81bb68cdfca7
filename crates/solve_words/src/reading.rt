//! Words read as a command.

ghost use Rattle.std.specs.Prelude.{◌≡◌, ◌≤◌, IfOk, List, map, not, find, position, All, bytes_eq, string_bytes};
ghost use Rattle.solve_words.specs.Options.{numbers_of};
ghost use Rattle.solve_words.specs.Standing.{stands_with};
ghost use Rattle.solve_words.specs.Settings.{option_of};
ghost use Rattle.solve_words.specs.Reading.{IsWithin};
ghost use Rattle.solve_words.specs.Values.{number_in, method_in, certificate_in, format_in, after_in};
ghost use Rattle.solve_words.specs.Command.{command_of, Answers};
ghost use Rattle.solve_words.specs.Ranges.{IsInRange};

use crate::command::{Choice, Command, Format};
use crate::fault::{WordFault, WordKind};
use crate::options::{Quantity, WordOption};
use crate::settings::{Setting, find_setting, read_settings};
use crate::verb::Verb;
use std::alloc::Global;

/// Reads words as a command, with the default of each option that is not given.
///
/// The words are the command, then pairs of an option and its value; the program's own name is not
/// among them. Pairs are tested from left to right. For each pair the tests are, in this order: the
/// option exists, the command takes it, it is given for the first time, a value follows it, and the
/// value has the option's form and is in its range. After all pairs, again from left to right, each
/// option is tested for whether it may be given with the method.
///
/// # Errors
///
/// [`WordFault::Bad`] with the position, counted from 1, and the kind of the first fault;
/// [`WordFault::NoMemory`] if memory runs out.
pub fn read_words(alloc: Global, words: &[String]) -> Result<Command, WordFault>
    ensures answer { Answers (map string_bytes words.now) result }
    ensures range { IfOk result IsInRange }
{
    let Some((first, pairs)) = words.split_first() else {
        return Err(WordFault::Bad {
            at: 1,
            kind: WordKind::NoCommand,
        });
    };
    let Some(verb) = Verb::named(first.as_str()) else {
        return Err(WordFault::Bad {
            at: 1,
            kind: WordKind::UnknownCommand,
        });
    };
    let settings = read_settings(alloc, verb, pairs)?;
    let settings = settings.as_slice();
    match first_refused(settings, method(settings)) {
        Some(index) => Err(WordFault::Bad {
            at: 2 + 2 * index as u64,
            kind: WordKind::NotWith,
        }),
        None => Ok(command(verb, settings)),
    }
}

/// The index of the first of these settings whose option may not be given with the method.
fn first_refused(settings: &[Setting], method: Choice) -> Option<usize>
    ensures { result
        ≡ position (λ setting. not (stands_with method (option_of setting))) settings.now }
{
    settings
        .iter()
        .position(|setting| !setting.option().stands_with(method))
}

/// The command with these settings.
fn command(verb: Verb, settings: &[Setting]) -> Command
    requires { All IsWithin settings.now }
    ensures same { result ≡ command_of verb settings.now }
    ensures range { IsInRange result }
{
    match verb {
        Verb::Solve => Command::Solve {
            method: method(settings),
            workers: number(settings, Quantity::Workers) as u32,
            error: number(settings, Quantity::Error),
            budget: number(settings, Quantity::Budget),
            nodes: number(settings, Quantity::Nodes) as u32,
            certificate: certificate(settings),
            format: format(settings),
            cells: number(settings, Quantity::Cells),
        },
        Verb::Tree => Command::Tree {
            workers: number(settings, Quantity::Workers) as u32,
            format: format(settings),
        },
        Verb::Check => Command::Check {
            format: format(settings),
        },
        Verb::Replay => Command::Replay {
            after: after(settings),
            format: format(settings),
        },
        Verb::Drill => drill(settings),
        Verb::Upgrade => Command::Upgrade {
            format: format(settings),
        },
        Verb::Edit => Command::Edit,
    }
}

fn drill(settings: &[Setting]) -> Command
    requires { All IsWithin settings.now }
    ensures same { result ≡ command_of Verb.Drill settings.now }
    ensures range { IsInRange result }
{
    Command::Drill {
        method: method(settings),
        workers: number(settings, Quantity::Workers) as u32,
        error: number(settings, Quantity::Error),
        budget: number(settings, Quantity::Budget),
        nodes: number(settings, Quantity::Nodes) as u32,
        seed: number(settings, Quantity::Seed),
        vars: number(settings, Quantity::Vars) as u32,
        size: number(settings, Quantity::Size) as u16,
        degree: number(settings, Quantity::Degree) as u32,
        top: number(settings, Quantity::Top),
        cells: number(settings, Quantity::Cells),
    }
}

/// The number given for an option, or its default.
fn number(settings: &[Setting], quantity: Quantity) -> u64
    requires { All IsWithin settings.now }
    ensures same { result ≡ number_in quantity settings.now }
    ensures least { (numbers_of quantity).least ≤ result }
    ensures within { result ≤ (numbers_of quantity).most }
{
    match find_setting(settings, WordOption::Number(quantity).word()) {
        Some(Setting::Number(_, number)) => number,
        _ => quantity.numbers().default,
    }
}

/// The method that is given, or auto.
fn method(settings: &[Setting]) -> Choice
    ensures { result ≡ method_in settings.now }
{
    match find_setting(settings, WordOption::Method.word()) {
        Some(Setting::Method(choice)) => choice,
        _ => Choice::Auto,
    }
}

/// Whether a certificate is requested.
fn certificate(settings: &[Setting]) -> bool
    ensures { result ≡ certificate_in settings.now }
{
    match find_setting(settings, WordOption::Certificate.word()) {
        Some(Setting::Certificate(wanted)) => wanted,
        _ => false,
    }
}

/// The format that is given, or that of this product.
fn format(settings: &[Setting]) -> Format
    ensures { result ≡ format_in settings.now }
{
    match find_setting(settings, WordOption::Format.word()) {
        Some(Setting::Format(format)) => format,
        _ => Format::Dcop,
    }
}

/// The number of events, if it is given.
fn after(settings: &[Setting]) -> Option<u64>
    ensures { result ≡ after_in settings.now }
{
    match find_setting(settings, WordOption::After.word()) {
        Some(Setting::After(events)) => Some(events),
        _ => None,
    }
}
