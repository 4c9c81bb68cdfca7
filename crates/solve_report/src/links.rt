//! The line of each refusal of links between nodes.

ghost use Rattle.std.specs.Prelude.{◌≡◌, ◌∷◌, ◌++◌, [], codes, OnOk, IfOk};
ghost use Rattle.std.specs.List.{flat_map};
ghost use Rattle.std.specs.String.{string_bytes};
ghost use Rattle.problem_text.specs.Canonical.{line as line_of};
ghost use Rattle.solve_report.specs.Links.{two_digits, hex_word, byte_word, link_refusal, differs_refusal, bytes_refusal};

use crate::refusal::bytes_of;
use dcop_base::{Bytes, NoMemory};
use std::alloc::Global;

/// `refused link`
pub(crate) fn refuse_link(alloc: Global) -> Result<Bytes, NoMemory>
    ensures { IfOk result (λ text. text ≡ line_of link_refusal) }
{
    Ok(bytes_of(String::from_str(alloc, "refused link\n")?))
}

/// `refused differs from NAME to NAME at K sent HEX taken HEX`
pub(crate) fn refuse_differs(
    alloc: Global,
    from: &str,
    to: &str,
    at: u64,
    sent: &Option<Bytes>,
    taken: &Option<Bytes>,
) -> Result<Bytes, NoMemory>
    ensures { IfOk result (λ text. text ≡ line_of (differs_refusal from.now to.now at sent.now taken.now)) }
{
    let mut text = String::new(alloc);
    write!(text, "refused differs from {from} to {to} at {at} sent ")?;
    write_code(&mut text, sent)?;
    text.push_str(" taken ")?;
    write_code(&mut text, taken)?;
    text.push_str("\n")?;
    Ok(bytes_of(text))
}

/// `refused bytes round R from G to H place P sent X taken Y`
pub(crate) fn refuse_bytes(
    alloc: Global,
    round: u64,
    from_node: u32,
    to_node: u32,
    place: u64,
    sent: Option<u8>,
    taken: Option<u8>,
) -> Result<Bytes, NoMemory>
    ensures { IfOk result (λ text. text ≡ line_of (bytes_refusal round from_node to_node place sent taken)) }
{
    let mut text = String::new(alloc);
    write!(
        text,
        "refused bytes round {round} from {from_node} to {to_node} place {place}"
    )?;
    write_bytes(&mut text, sent, taken)?;
    text.push_str("\n")?;
    Ok(bytes_of(text))
}

/// ` sent X taken Y`
fn write_bytes(text: &mut String, sent: Option<u8>, taken: Option<u8>) -> Result<(), NoMemory>
    ensures { OnOk result (string_bytes text.new ≡ string_bytes text.old
        ++ flat_map (λ word. 32 ∷ word) (codes "sent" ∷ byte_word sent ∷ codes "taken" ∷ byte_word taken ∷ [])) }
{
    text.push_str(" sent ")?;
    write_byte(text, sent)?;
    text.push_str(" taken ")?;
    write_byte(text, taken)
}

/// The code of an envelope in hexadecimal, or `-` if there is none.
fn write_code(text: &mut String, code: &Option<Bytes>) -> Result<(), NoMemory>
    ensures { OnOk result (string_bytes text.new ≡ string_bytes text.old ++ hex_word code.now) }
{
    match code {
        None => Ok(text.push_str("-")?),
        Some(bytes) => write_hex(text, bytes.as_slice()),
    }
}

/// Two hexadecimal digits for each byte.
fn write_hex(text: &mut String, bytes: &[u8]) -> Result<(), NoMemory>
    ensures { OnOk result (string_bytes text.new ≡ string_bytes text.old ++ flat_map two_digits bytes.now) }
{
    for byte in bytes {
        write_digits(text, *byte)?;
    }
    Ok(())
}

/// A byte as two hexadecimal digits, or `-` if there is none.
fn write_byte(text: &mut String, byte: Option<u8>) -> Result<(), NoMemory>
    ensures { OnOk result (string_bytes text.new ≡ string_bytes text.old ++ byte_word byte) }
{
    match byte {
        None => Ok(text.push_str("-")?),
        Some(byte) => write_digits(text, byte),
    }
}

/// Two hexadecimal digits of a byte.
fn write_digits(text: &mut String, byte: u8) -> Result<(), NoMemory>
    ensures { OnOk result (string_bytes text.new ≡ string_bytes text.old ++ two_digits byte) }
{
    Ok(write!(text, "{byte:02x}")?)
}
