//! The output for a command.

ghost use Rattle.std.specs.Prelude.{◌≡◌, ◌++◌, decimal, codes, false, None, IfSome, OnOk};
ghost use Rattle.flat_model.specs.Replies.{refusal_text, fault_text, ok_line, bar_line, fault_bytes, is_refused, reply_bytes};
ghost use Rattle.flat_model.specs.Trace.{lines_in};
ghost use Rattle.std.specs.List.{flat_map};
ghost use Rattle.undo_journal.specs.CommandMeaning.{refusal_of, reply_of};
ghost use Rattle.trace_lines.specs.LineMeaning.{text_fault_of};
ghost use Rattle.trace_lines.specs.Replied.{AddsReply};

use crate::TextFault;
use crate::lines::Lines;
use itoa::{Buffer, write_digits};
use std::alloc::{AllocError, Global};
use undo_journal::{Refusal, Reply};

/// Appends the number's decimal digits to the bytes.
fn put_number(bytes: &mut Vec<u8>, number: u64) -> Result<(), AllocError>
    ensures { OnOk result (bytes.new.items ≡ bytes.old.items ++ decimal number) }
{
    let mut digits = Buffer::new();
    bytes.extend_from_slice(digits.format(number).as_bytes())
}

/// Appends `N ok` and a line feed to the bytes.
fn put_ok(bytes: &mut Vec<u8>, number: u64) -> Result<(), AllocError>
    ensures { OnOk result (bytes.new.items ≡ bytes.old.items ++ ok_line number) }
{
    let mut line = *b"00000000000000000000 ok\n";
    let start = write_digits(number, &mut line, 20);
    bytes.extend_from_slice(&line[start..])
}

/// Appends a line of a reply's text to the bytes.
fn put_bar_line(bytes: &mut Vec<u8>, text: &[u8]) -> Result<(), AllocError>
    ensures { OnOk result (bytes.new.items ≡ bytes.old.items ++ bar_line text.now) }
{
    bytes.extend_from_slice(b"| ")?;
    bytes.extend_from_slice(text)?;
    bytes.extend_from_slice(b"\n")
}

/// Appends each line of a text to the bytes.
fn put_bar_lines(bytes: &mut Vec<u8>, text: &[u8]) -> Result<(), AllocError>
    ensures { OnOk result
        (bytes.new.items ≡ bytes.old.items ++ flat_map bar_line (lines_in text.now)) }
{
    for line in Lines::of(text) {
        put_bar_line(bytes, line)?;
    }
    Ok(())
}

/// Appends the words of a refusal to the bytes.
fn put_refusal(bytes: &mut Vec<u8>, refusal: &Refusal<Global>) -> Result<(), AllocError>
    ensures { OnOk result
        (bytes.new.items ≡ bytes.old.items ++ refusal_text (refusal_of refusal.now)) }
{
    match refusal {
        Refusal::Exists => bytes.extend_from_slice(b"exists"),
        Refusal::NoGroup(path) => {
            bytes.extend_from_slice(b"nogroup ")?;
            bytes.extend_from_slice(path.text())
        }
        Refusal::Descendants(path) => {
            bytes.extend_from_slice(b"descendants ")?;
            bytes.extend_from_slice(path.text())
        }
        Refusal::Depth(path) => {
            bytes.extend_from_slice(b"depth ")?;
            bytes.extend_from_slice(path.text())
        }
        Refusal::NoSlot => bytes.extend_from_slice(b"noslot"),
        Refusal::RootFixed => bytes.extend_from_slice(b"rootfixed"),
        Refusal::HasChildren => bytes.extend_from_slice(b"haschildren"),
        Refusal::HasProcesses => bytes.extend_from_slice(b"hasprocesses"),
        Refusal::NoProcess(pid) => {
            bytes.extend_from_slice(b"noprocess ")?;
            put_number(bytes, u64::from(pid.get()))
        }
        Refusal::PidInUse(pid) => {
            bytes.extend_from_slice(b"pidinuse ")?;
            put_number(bytes, u64::from(pid.get()))
        }
        Refusal::PidsMax(path) => {
            bytes.extend_from_slice(b"pidsmax ")?;
            bytes.extend_from_slice(path.text())
        }
        Refusal::NoFile => bytes.extend_from_slice(b"nofile"),
        Refusal::NotReadable => bytes.extend_from_slice(b"direction"),
    }
}

/// The word for a text fault.
fn fault_word(fault: TextFault) -> &'static [u8]
    ensures { result.now ≡ fault_text (text_fault_of fault) }
{
    match fault {
        TextFault::Syntax => b"syntax",
        TextFault::Path => b"path",
        TextFault::File => b"file",
        TextFault::Direction => b"direction",
        TextFault::Value => b"value",
    }
}

/// Appends `N refused ` to the bytes.
fn put_refused(bytes: &mut Vec<u8>, number: u64) -> Result<(), AllocError>
    ensures { OnOk result
        (bytes.new.items ≡ bytes.old.items ++ (decimal number ++ codes " refused ")) }
{
    put_number(bytes, number)?;
    bytes.extend_from_slice(b" refused ")
}

/// Appends the output for a line that is not a command.
///
/// # Errors
///
/// `AllocError` when out of memory; a part of the output may have been appended.
pub fn put_fault(bytes: &mut Vec<u8>, number: u64, fault: TextFault) -> Result<(), AllocError>
    ensures { OnOk result
        (bytes.new.items ≡ bytes.old.items ++ fault_bytes number (text_fault_of fault)) }
{
    put_refused(bytes, number)?;
    bytes.extend_from_slice(fault_word(fault))?;
    bytes.extend_from_slice(b"\n")
}

/// Appends the output for a command.
///
/// # Errors
///
/// `AllocError` when out of memory, either here or in the reply itself; a part of the output may have been appended.
pub fn put_reply(
    alloc: Global,
    bytes: &mut Vec<u8>,
    number: u64,
    reply: &Reply<Global>,
) -> Result<(), AllocError>
    ensures { OnOk result (AddsReply bytes.old.items number (reply_of reply.now) bytes.new.items) }
{
    match reply {
        Reply::Done => put_ok(bytes, number),
        Reply::Text(text) => {
            put_ok(bytes, number)?;
            put_bar_lines(bytes, text.as_slice())
        }
        Reply::Undone(command) => {
            let text = command.text(alloc)?;
            put_ok(bytes, number)?;
            put_bar_line(bytes, text.as_slice())
        }
        Reply::Refused(refusal) => {
            put_refused(bytes, number)?;
            put_refusal(bytes, refusal)?;
            bytes.extend_from_slice(b"\n")
        }
        Reply::NothingToUndo => {
            put_refused(bytes, number)?;
            bytes.extend_from_slice(b"nothing\n")
        }
        Reply::OutOfMemory => Err(AllocError),
    }
}

/// Whether the reply is a refusal. Out of memory is not one.
pub fn is_refused(reply: &Reply<Global>) -> bool
    ensures refused { IfSome (reply_of reply.now) (λ r. result ≡ is_refused r) }
    ensures no_memory { reply_of reply.now ≡ None → result ≡ false }
{
    matches!(reply, Reply::Refused(_) | Reply::NothingToUndo)
}
