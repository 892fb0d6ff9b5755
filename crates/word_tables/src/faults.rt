//! The table of faults: why the text of a line is not a command.

ghost use Rattle.std.specs.Prelude.{◌≡◌};
ghost use Rattle.trace_lines.specs.LineMeaning.{text_fault_of};
ghost use Rattle.line_engine.specs.FaultCodes.{fault_code};

use std::alloc::Global;
use std::io::Print;
use std::str::from_utf8;
use trace_lines::{TextFault, put_fault};

const FAULTS: [TextFault; 5] = [
    TextFault::Syntax,
    TextFault::Path,
    TextFault::File,
    TextFault::Direction,
    TextFault::Value,
];

fn code(fault: TextFault) -> u32
    ensures { result ≡ fault_code (text_fault_of fault) }
{
    match fault {
        TextFault::Syntax => 32,
        TextFault::Path => 33,
        TextFault::File => 34,
        TextFault::Direction => 35,
        TextFault::Value => 36,
    }
}

// The names in Python and Go, and in C.
fn names(fault: TextFault) -> (&'static str, &'static str) {
    match fault {
        TextFault::Syntax => ("BadSyntax", "MK_SYNTAX"),
        TextFault::Path => ("BadPath", "MK_PATH"),
        TextFault::File => ("BadFile", "MK_FILE"),
        TextFault::Direction => ("BadDirection", "MK_DIRECTION"),
        TextFault::Value => ("BadValue", "MK_VALUE"),
    }
}

fn errno(fault: TextFault) -> &'static str {
    match fault {
        TextFault::File => "ENOENT",
        TextFault::Syntax | TextFault::Path | TextFault::Direction | TextFault::Value => "EINVAL",
    }
}

fn message(fault: TextFault) -> &'static str {
    match fault {
        TextFault::Syntax => {
            "an unknown command, a wrong number of words, or a line that is too long"
        }
        TextFault::Path => "the word is not a path",
        TextFault::File => "there is no file of that name",
        TextFault::Direction => "the file cannot be read or written in this way",
        TextFault::Value => "the value is not a number, or out of range",
    }
}

// What it means, for documents: without capital and full stop.
fn meaning(fault: TextFault) -> &'static str {
    match fault {
        TextFault::Syntax =>
            "an unknown command, a wrong number of words, or more than 8,192 bytes",
        TextFault::Path => "a word is not a path",
        TextFault::File => "there is no file of that name",
        TextFault::Direction => "the file cannot be written, or cannot be read",
        TextFault::Value => "a value is not a number, or outside its range",
    }
}

fn print_one<R: Print>(rt: &R, alloc: Global, fault: TextFault) -> anyhow::Result<()> {
    let code = code(fault);
    let (name, c) = names(fault);
    let errno = errno(fault);
    let message = message(fault);
    let meaning = meaning(fault);
    let mut answer = Vec::new(alloc);
    put_fault(&mut answer, 1, fault)?;
    let answer = from_utf8(answer.as_slice())?.trim();
    println!(rt; "fault\t{code}\t{name}\t{c}\t{answer}\t{errno}\t{message}\t{meaning}")?;
    Ok(())
}

pub(crate) fn print<R: Print>(rt: &R, alloc: Global) -> anyhow::Result<()> {
    println!(rt; "# fault: as refusal, of a line whose text is not a command")?;
    for fault in FAULTS {
        print_one(rt, alloc, fault)?;
    }
    Ok(())
}
