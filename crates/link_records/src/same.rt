//! Whether two envelopes are the same. Nothing here takes memory.

ghost use Rattle.std.specs.Prelude.{◌≡◌, ◌↔◌, true};
ghost use Rattle.protocol_steps.specs.declared.message.Message.TheVariants.{Token as token, Done as done, Util as util, ValueAll as value_all, Value as value_of, Cost as cost, Threshold as threshold, Terminate as terminate};

use adopt_context::AgentContext;
use dcop_base::{CellList, Val, VarList};
use protocol_steps::{Envelope, Message};

/// Whether two envelopes are the same: the stamp and the message.
pub(crate) fn is_same(one: &Envelope, other: &Envelope) -> bool
    ensures { (result ≡ true) ↔ (one.now ≡ other.now) }
{
    if one.stamp != other.stamp {
        return false;
    }
    is_same_message(&one.message, &other.message)
}

fn is_same_message(one: &Message, other: &Message) -> bool
    ensures { (result ≡ true) ↔ (one.now ≡ other.now) }
{
    match one {
        Message::Token { path } => is_token(path, other),
        Message::Done { visited } => is_done(visited, other),
        Message::Util { scope, cells } => is_util(scope, cells, other),
        Message::ValueAll { values } => is_value_all(values, other),
        Message::Value { value } => is_value(*value, other),
        Message::Cost {
            context,
            lower,
            upper,
        } => is_cost(context, *lower, *upper, other),
        Message::Threshold { amount, context } => is_threshold(*amount, context, other),
        Message::Terminate { context } => is_terminate(context, other),
    }
}

fn is_token(path: &VarList, other: &Message) -> bool
    ensures { (result ≡ true) ↔ (token path.now ≡ other.now) }
{
    if let Message::Token { path: found } = other {
        are_same_variables(path, found)
    } else {
        false
    }
}

fn is_done(visited: &VarList, other: &Message) -> bool
    ensures { (result ≡ true) ↔ (done visited.now ≡ other.now) }
{
    if let Message::Done { visited: found } = other {
        are_same_variables(visited, found)
    } else {
        false
    }
}

fn is_util(scope: &VarList, cells: &CellList, other: &Message) -> bool
    ensures { (result ≡ true) ↔ (util scope.now cells.now ≡ other.now) }
{
    if let Message::Util {
        scope: found,
        cells: costs,
    } = other
    {
        are_same_variables(scope, found) && are_same_cells(cells, costs)
    } else {
        false
    }
}

fn is_value_all(values: &AgentContext, other: &Message) -> bool
    ensures { (result ≡ true) ↔ (value_all values.now ≡ other.now) }
{
    if let Message::ValueAll { values: found } = other {
        is_same_context(values, found)
    } else {
        false
    }
}

fn is_value(value: Val, other: &Message) -> bool
    ensures { (result ≡ true) ↔ (value_of value ≡ other.now) }
{
    if let Message::Value { value: found } = other {
        value == *found
    } else {
        false
    }
}

fn is_cost(context: &AgentContext, lower: u64, upper: Option<u64>, other: &Message) -> bool
    ensures { (result ≡ true) ↔ (cost context.now lower upper ≡ other.now) }
{
    if let Message::Cost {
        context: found,
        lower: least,
        upper: most,
    } = other
    {
        is_same_context(context, found) && lower == *least && upper == *most
    } else {
        false
    }
}

fn is_threshold(amount: u64, context: &AgentContext, other: &Message) -> bool
    ensures { (result ≡ true) ↔ (threshold amount context.now ≡ other.now) }
{
    if let Message::Threshold {
        amount: allotted,
        context: found,
    } = other
    {
        amount == *allotted && is_same_context(context, found)
    } else {
        false
    }
}

fn is_terminate(context: &AgentContext, other: &Message) -> bool
    ensures { (result ≡ true) ↔ (terminate context.now ≡ other.now) }
{
    if let Message::Terminate { context: found } = other {
        is_same_context(context, found)
    } else {
        false
    }
}

fn are_same_variables(some: &VarList, others: &VarList) -> bool
    ensures { (result ≡ true) ↔ (some.now ≡ others.now) }
{
    some == others
}

fn are_same_cells(some: &CellList, others: &CellList) -> bool
    ensures { (result ≡ true) ↔ (some.now ≡ others.now) }
{
    some.as_slice() == others.as_slice()
}

fn is_same_context(one: &AgentContext, other: &AgentContext) -> bool
    ensures { (result ≡ true) ↔ (one.now ≡ other.now) }
{
    one.pairs() == other.pairs()
}
