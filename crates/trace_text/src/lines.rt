//! The lines of a trace: messages, states of agents, and events.

ghost use Rattle.std.specs.Prelude.{◌≡◌, [], ◌∷◌, ◌<◌, ◌++◌, length, map, codes, OnOk};
ghost use Rattle.std.specs.List.{flat_map};
ghost use Rattle.std.specs.Fmt.{decimal};
ghost use Rattle.std.specs.String.{string_bytes};
ghost use Rattle.problem_text.specs.Canonical.{line};
ghost use Rattle.delivery_core.specs.State.{view_at, context_in};
ghost use Rattle.solve_report.specs.Replay.{bound_word};
ghost use Rattle.trace_text.specs.Spaced.{spaced};
ghost use Rattle.trace_text.specs.Lines.{name_in, pair_words, message_words, took_words, sent_words, known_words, agent_lines, event_words};
ghost use Rattle.trace_text.specs.Told.{start_told, event_told};

use crate::words::{
    number_of, write_bound, write_number, write_numbered, write_standing, write_word,
};
use adopt_context::AgentContext;
use dcop_base::{NoMemory, Val, VarId};
use delivery_core::{CoreState, Exchange};
use problem_text::Names;
use protocol_steps::{Letter, Message, Parcel};
use run_log::LogEvent;

/// The name of a variable; empty if the list has none for it.
fn name_in(names: &Names, var: VarId) -> &str
    ensures { result.now ≡ name_in names.now var }
{
    if (var.0 as usize) < names.len() {
        names.name(var)
    } else {
        ""
    }
}

/// Writes the start of an agent: `start NAME`, its state, and what it sent.
pub(crate) fn write_start(
    text: &mut String,
    names: &Names,
    core: &CoreState,
    me: VarId,
    sent: &[Parcel],
) -> Result<(), NoMemory>
    requires { me < length core.now.seats }
    ensures { OnOk result (string_bytes text.new
        ≡ string_bytes text.old ++ flat_map line (start_told names.now core.now me sent.now)) }
{
    let name = name_in(names, me);
    write!(text, "start {name}\n")?;
    write_agent(text, names, core, me)?;
    write_sent(text, names, sent)
}

/// Writes the event with this number, given the agents after it: `event K NAME STAMP`, what its
/// agent took, its state, and what it sent.
pub(crate) fn write_event(
    text: &mut String,
    names: &Names,
    core: &CoreState,
    number: u64,
    event: &LogEvent,
    exchange: &Exchange,
) -> Result<(), NoMemory>
    requires { event.now.agent < length core.now.seats }
    ensures { OnOk result (string_bytes text.new
        ≡ string_bytes text.old ++ flat_map line (event_told names.now core.now number event.now
        exchange.now.took.items exchange.now.sent.items)) }
{
    write_heading(text, names, number, event)?;
    write_took(text, names, exchange.took.as_slice())?;
    write_agent(text, names, core, event.agent)?;
    write_sent(text, names, exchange.sent.as_slice())
}

/// Writes the first line of an event: `event K NAME STAMP`.
fn write_heading(
    text: &mut String,
    names: &Names,
    number: u64,
    event: &LogEvent,
) -> Result<(), NoMemory>
    ensures { OnOk result (string_bytes text.new
        ≡ string_bytes text.old ++ line (event_words names.now number event.now)) }
{
    text.push_str("event")?;
    write_number(text, number)?;
    write_numbered(text, name_in(names, event.agent), event.stamp)?;
    Ok(text.push_str("\n")?)
}

/// Writes the state of an agent: a line `state ..`, and a line `context ..` of what it knows about
/// other agents' values.
fn write_agent(
    text: &mut String,
    names: &Names,
    core: &CoreState,
    me: VarId,
) -> Result<(), NoMemory>
    requires { me < length core.now.seats }
    ensures { OnOk result (string_bytes text.new
        ≡ string_bytes text.old ++ flat_map line (agent_lines names.now (view_at core.now me))) }
{
    text.push_str("state")?;
    write_standing(text, core.value(me), core.standing(me), core.ended(me))?;
    text.push_str("\ncontext")?;
    write_known(text, names, core, me)?;
    Ok(text.push_str("\n")?)
}

/// Writes what an agent knows about other agents' values, each word after a space; nothing for an
/// agent that keeps no context.
fn write_known(
    text: &mut String,
    names: &Names,
    core: &CoreState,
    me: VarId,
) -> Result<(), NoMemory>
    requires { me < length core.now.seats }
    ensures { OnOk result (string_bytes text.new
        ≡ string_bytes text.old
        ++ spaced (known_words names.now (context_in (view_at core.now me)))) }
{
    match core.context(me) {
        Some(context) => write_context(text, names, context),
        None => Ok(()),
    }
}

/// Writes a line `took FROM MESSAGE` for each of these messages.
fn write_took(text: &mut String, names: &Names, letters: &[Letter]) -> Result<(), NoMemory>
    ensures { OnOk result (string_bytes text.new
        ≡ string_bytes text.old ++ flat_map line (map (took_words names.now) letters.now)) }
{
    for letter in letters {
        write_letter(text, names, letter)?;
    }
    Ok(())
}

fn write_letter(text: &mut String, names: &Names, letter: &Letter) -> Result<(), NoMemory>
    ensures { OnOk result (string_bytes text.new
        ≡ string_bytes text.old ++ line (took_words names.now letter.now)) }
{
    text.push_str("took")?;
    write_word(text, name_in(names, letter.from))?;
    write_message(text, names, &letter.message)?;
    Ok(text.push_str("\n")?)
}

/// Writes a line `sent TO MESSAGE` for each of these messages.
fn write_sent(text: &mut String, names: &Names, parcels: &[Parcel]) -> Result<(), NoMemory>
    ensures { OnOk result (string_bytes text.new
        ≡ string_bytes text.old ++ flat_map line (map (sent_words names.now) parcels.now)) }
{
    for parcel in parcels {
        write_parcel(text, names, parcel)?;
    }
    Ok(())
}

fn write_parcel(text: &mut String, names: &Names, parcel: &Parcel) -> Result<(), NoMemory>
    ensures { OnOk result (string_bytes text.new
        ≡ string_bytes text.old ++ line (sent_words names.now parcel.now)) }
{
    text.push_str("sent")?;
    write_word(text, name_in(names, parcel.to))?;
    write_message(text, names, &parcel.message)?;
    Ok(text.push_str("\n")?)
}

/// Writes what a message says, each word after a space; nothing for kinds that agents of ADOPT do
/// not send.
fn write_message(text: &mut String, names: &Names, message: &Message) -> Result<(), NoMemory>
    ensures { OnOk result (string_bytes text.new
        ≡ string_bytes text.old ++ spaced (message_words names.now message.now)) }
{
    match message {
        Message::Token { .. }
        | Message::Done { .. }
        | Message::Util { .. }
        | Message::ValueAll { .. } => Ok(()),
        Message::Value { value } => write_value(text, *value),
        Message::Cost {
            context,
            lower,
            upper,
        } => write_cost(text, names, context, *lower, *upper),
        Message::Threshold { amount, context } => write_threshold(text, names, *amount, context),
        Message::Terminate { context } => write_terminate(text, names, context),
    }
}

/// ` value V`
fn write_value(text: &mut String, value: Val) -> Result<(), NoMemory>
    ensures { OnOk result (string_bytes text.new
        ≡ string_bytes text.old ++ spaced (codes "value" ∷ decimal value ∷ [])) }
{
    write_numbered(text, "value", number_of(value))
}

/// ` cost L U` and the pairs of its context.
fn write_cost(
    text: &mut String,
    names: &Names,
    context: &AgentContext,
    lower: u64,
    upper: Option<u64>,
) -> Result<(), NoMemory>
    ensures { OnOk result (string_bytes text.new
        ≡ string_bytes text.old ++ spaced (codes "cost" ∷ decimal lower ∷ bound_word upper
        ∷ pair_words names.now context.now)) }
{
    write_numbered(text, "cost", lower)?;
    write_bound(text, upper)?;
    write_context(text, names, context)
}

/// ` threshold T` and the pairs of its context.
fn write_threshold(
    text: &mut String,
    names: &Names,
    amount: u64,
    context: &AgentContext,
) -> Result<(), NoMemory>
    ensures { OnOk result (string_bytes text.new
        ≡ string_bytes text.old
        ++ spaced (codes "threshold" ∷ decimal amount ∷ pair_words names.now context.now)) }
{
    write_numbered(text, "threshold", amount)?;
    write_context(text, names, context)
}

/// ` terminate` and the pairs of its context.
fn write_terminate(text: &mut String, names: &Names, context: &AgentContext) -> Result<(), NoMemory>
    ensures { OnOk result (string_bytes text.new
        ≡ string_bytes text.old ++ spaced (codes "terminate" ∷ pair_words names.now context.now)) }
{
    text.push_str(" terminate")?;
    write_context(text, names, context)
}

/// Writes the name and the value of each pair of a context, each after a space.
fn write_context(text: &mut String, names: &Names, context: &AgentContext) -> Result<(), NoMemory>
    ensures { OnOk result (string_bytes text.new
        ≡ string_bytes text.old ++ spaced (pair_words names.now context.now)) }
{
    write_pairs(text, names, context.pairs())
}

/// Writes the name and the value of each pair, each after a space.
fn write_pairs(text: &mut String, names: &Names, pairs: &[(VarId, Val)]) -> Result<(), NoMemory>
    ensures { OnOk result (string_bytes text.new
        ≡ string_bytes text.old ++ spaced (pair_words names.now pairs.now)) }
{
    for pair in pairs {
        write_pair(text, names, pair.0, pair.1)?;
    }
    Ok(())
}

fn write_pair(text: &mut String, names: &Names, var: VarId, value: Val) -> Result<(), NoMemory>
    ensures { OnOk result (string_bytes text.new
        ≡ string_bytes text.old ++ spaced (name_in names.now var ∷ decimal value ∷ [])) }
{
    write_numbered(text, name_in(names, var), number_of(value))
}
