//! Writing the text of a log.

ghost use Rattle.std.specs.Prelude.{◌≡◌, ◌≤◌, ◌<◌, ◌++◌, ◌∷◌, ℕ, List, true, length, map, IfOk, OnOk};
ghost use Rattle.std.specs.List.{All, flat_map, list_all};
ghost use Rattle.std.specs.String.{string_bytes};
ghost use Rattle.problem_text.specs.Canonical.{line};
ghost use Rattle.problem_text.specs.Name.{is_name};
ghost use Rattle.run_log.specs.EventLine.{take_limit};
ghost use Rattle.run_log.specs.LogText.{take_words, event_words, log_text, IsNamedEvent};
ghost use Rattle.run_log.specs.LogReading.{IsReadBack};

use crate::log::{Log, LogEvent};
use dcop_base::{Bytes, NoMemory};
use problem_text::Names;
use protocol_steps::Take;
use std::alloc::Global;

/// The text of a log: for each event a line `event AGENT STAMP`, followed by a pair `SENDER COUNT`
/// for each of its takes. The names must obey the rule of problem texts, and each agent and sender
/// must have one. [`read_log`](crate::read_log) reads the text as the same log if no stamp is above
/// [`CAP`](dcop_base::CAP).
///
/// # Errors
///
/// [`NoMemory`] if memory runs out.
pub fn write_log(alloc: Global, log: &Log, names: &Names) -> Result<Bytes, NoMemory>
    requires named { All (IsNamedEvent (length names.now)) log.now }
    requires words { list_all is_name names.now ≡ true }
    ensures text { IfOk result (λ bytes. bytes ≡ log_text names.now log.now) }
    ensures again { IfOk result (λ bytes. IsReadBack names.now bytes log.now) }
{
    // The clause of `len` that the names are distinct lets each name be found again.
    let _count = names.len();
    let mut text = String::new(alloc);
    write_events(&mut text, names, log.as_slice())?;
    Ok(Bytes::from_vec(text.into_bytes()))
}

/// Writes a line `event AGENT STAMP` for each event, followed by a pair `SENDER COUNT` for each of
/// its takes. Each agent and sender must have a name.
///
/// # Errors
///
/// [`NoMemory`] if memory runs out. No clause then says what the text holds.
pub fn write_events(text: &mut String, names: &Names, log: &[LogEvent]) -> Result<(), NoMemory>
    requires { All (IsNamedEvent (length names.now)) log.now }
    ensures text { OnOk result (string_bytes text.new ≡ string_bytes text.old ++ log_text names.now log.now) }
    ensures counts { OnOk result (All (λ e. All (λ t. t.count ≤ take_limit) e.takes) log.now) }
{
    for event in log {
        write_event(text, names, event)?;
    }
    Ok(())
}

fn write_event(text: &mut String, names: &Names, event: &LogEvent) -> Result<(), NoMemory>
    requires { IsNamedEvent (length names.now) event.now }
    ensures text { OnOk result (string_bytes text.new ≡ string_bytes text.old ++ line (event_words names.now event.now)) }
    ensures counts { OnOk result (All (λ t. t.count ≤ take_limit) event.now.takes) }
{
    let name = names.name(event.agent);
    let stamp = event.stamp;
    write!(text, "event {name} {stamp}")?;
    write_takes(text, names, event.takes.as_slice())?;
    Ok(text.push_str("\n")?)
}

fn write_takes(text: &mut String, names: &Names, takes: &[Take]) -> Result<(), NoMemory>
    requires { All (λ t. t.from < length names.now) takes.now }
    ensures text { OnOk result (string_bytes text.new
        ≡ string_bytes text.old ++ flat_map (λ t. flat_map (λ w. 32 ∷ w) (take_words names.now t)) takes.now) }
    ensures counts { OnOk result (All (λ t. t.count ≤ take_limit) takes.now) }
{
    for take in takes {
        write_take(text, names, take)?;
    }
    Ok(())
}

fn write_take(text: &mut String, names: &Names, take: &Take) -> Result<(), NoMemory>
    requires { take.now.from < length names.now }
    ensures text { OnOk result (string_bytes text.new
        ≡ string_bytes text.old ++ flat_map (λ w. 32 ∷ w) (take_words names.now take.now)) }
    ensures count { OnOk result (take.now.count ≤ take_limit) }
{
    let name = names.name(take.from);
    let count = take.count;
    Ok(write!(text, " {name} {count}")?)
}
