//! The numbers of a group, for C.

ghost use Rattle.std.specs.Prelude.{◌≡◌};
ghost use Rattle.flat_model.specs.Counts.{current};
ghost use Rattle.flat_model.specs.PathText.{read_path};
ghost use Rattle.line_engine.specs.Numbers.{peak_number, pids_limit, populated_number};
ghost use Rattle.c_library.specs.Status.{TellsAt, number_info, number_status, number_value};

use crate::exports::{BAD_PATH, CLOSED, DONE, FAULT, NO_GROUP, OUT_OF_MEMORY, REFUSED, told};
use crate::handle::Handle;
use crate::info::Info;
use line_engine::Number;
use std::alloc::Global;

const NO_FILE: u32 = 12;

fn number_status(number: Number) -> u32
    ensures { result ≡ number_status number }
{
    match number {
        Number::Told(_) => DONE,
        Number::NoGroup | Number::NoFile => REFUSED,
        Number::BadPath => FAULT,
        Number::OutOfMemory => OUT_OF_MEMORY,
    }
}

fn number_info(number: Number) -> Info
    ensures { result ≡ number_info number }
{
    match number {
        Number::Told(_) | Number::OutOfMemory => told(0, 0, 0),
        Number::NoGroup => told(0, 0, NO_GROUP),
        Number::NoFile => told(0, 0, NO_FILE),
        Number::BadPath => told(0, 0, BAD_PATH),
    }
}

fn number_value(number: Number) -> u64
    ensures { result ≡ number_value number }
{
    match number {
        Number::Told(value) => value,
        Number::NoGroup | Number::NoFile | Number::BadPath | Number::OutOfMemory => 0,
    }
}

/// How many processes are in the group or below it.
#[unsafe(no_mangle)]
pub extern "C" fn mk0_current(
    alloc: Global,
    h: &mut Handle,
    path: &[u8],
    value: &mut u64,
    info: &mut Info,
) -> u32
    ensures { TellsAt h.old.seal.held current (read_path path.now) result value.new info.new h.new.seal.held }
{
    let Some(engine) = h.take(alloc) else {
        *value = 0;
        *info = told(0, 0, 0);
        return CLOSED;
    };
    let mut engine = engine;
    let number = engine.current(alloc, path);
    h.put(alloc, engine);
    *value = number_value(number);
    *info = number_info(number);
    number_status(number)
}

/// Whether a process is in the group or below it: 1 or 0.
#[unsafe(no_mangle)]
pub extern "C" fn mk0_populated(
    alloc: Global,
    h: &mut Handle,
    path: &[u8],
    value: &mut u64,
    info: &mut Info,
) -> u32
    ensures { TellsAt h.old.seal.held populated_number (read_path path.now) result value.new info.new h.new.seal.held }
{
    let Some(engine) = h.take(alloc) else {
        *value = 0;
        *info = told(0, 0, 0);
        return CLOSED;
    };
    let mut engine = engine;
    let number = engine.populated(alloc, path);
    h.put(alloc, engine);
    *value = number_value(number);
    *info = number_info(number);
    number_status(number)
}

/// The most processes that were in the group and below it at once.
#[unsafe(no_mangle)]
pub extern "C" fn mk0_peak(
    alloc: Global,
    h: &mut Handle,
    path: &[u8],
    value: &mut u64,
    info: &mut Info,
) -> u32
    ensures { TellsAt h.old.seal.held peak_number (read_path path.now) result value.new info.new h.new.seal.held }
{
    let Some(engine) = h.take(alloc) else {
        *value = 0;
        *info = told(0, 0, 0);
        return CLOSED;
    };
    let number = engine.peak(alloc, path);
    h.put(alloc, engine);
    *value = number_value(number);
    *info = number_info(number);
    number_status(number)
}

/// The limit of the group; the greatest number for no limit.
#[unsafe(no_mangle)]
pub extern "C" fn mk0_limit(
    alloc: Global,
    h: &mut Handle,
    path: &[u8],
    value: &mut u64,
    info: &mut Info,
) -> u32
    ensures { TellsAt h.old.seal.held pids_limit (read_path path.now) result value.new info.new h.new.seal.held }
{
    let Some(engine) = h.take(alloc) else {
        *value = 0;
        *info = told(0, 0, 0);
        return CLOSED;
    };
    let number = engine.limit(alloc, path);
    h.put(alloc, engine);
    *value = number_value(number);
    *info = number_info(number);
    number_status(number)
}
