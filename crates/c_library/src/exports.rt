//! The exports for C. Each call takes the engine out of its handle and puts it back.

ghost use Rattle.std.specs.Prelude.{◌≡◌, codes};
ghost use Rattle.flat_model.specs.PathText.{read_path};
ghost use Rattle.flat_model.specs.Trace.{read_line};
ghost use Rattle.c_library.specs.Status.{IsOpened, ClosesHandle, AnswersAt, CopiesAt, DepthAt, ForgetsAt, ListsAt, FindsAt, TellsChildrenOf, TellsGroupsOf, TellsSubtreeOf, TellsHistoryOf};
ghost use Rattle.c_library.specs.Status.{told, too_small, status_of, status_of_code, info_of, listing_status, listing_info, found_status, found_info};

use crate::handle::Handle;
use crate::info::Info;
use line_engine::{Answer, Found, LineEngine, Listing};
use std::alloc::Global;

pub(crate) const DONE: u32 = 0;

pub(crate) const REFUSED: u32 = 1;

pub(crate) const FAULT: u32 = 2;

const TOO_SMALL: u32 = 3;

pub(crate) const OUT_OF_MEMORY: u32 = 4;

const SKIPPED: u32 = 5;

pub(crate) const CLOSED: u32 = 6;

pub(crate) const NO_GROUP: u32 = 2;

const FIRST_FAULT: u32 = 32;

pub(crate) const BAD_PATH: u32 = 33;

pub(crate) fn told(len: usize, count: usize, code: u32) -> Info
    ensures { result ≡ told len count code }
{
    Info {
        len,
        count,
        needed: 0,
        code,
    }
}

fn too_small(needed: usize) -> Info
    ensures { result ≡ too_small needed }
{
    Info {
        len: 0,
        count: 0,
        needed,
        code: 0,
    }
}

fn status_of_code(code: u32) -> u32
    ensures { result ≡ status_of_code code }
{
    if code == 0 {
        return DONE;
    }
    if code < FIRST_FAULT { REFUSED } else { FAULT }
}

fn status_of(answer: Answer) -> u32
    ensures { result ≡ status_of answer }
{
    match answer {
        Answer::Skipped => SKIPPED,
        Answer::Answered { len: _, code } => status_of_code(code),
        Answer::TooSmall { needed: _ } => TOO_SMALL,
        Answer::OutOfMemory => OUT_OF_MEMORY,
    }
}

fn info_of(answer: Answer) -> Info
    ensures { result ≡ info_of answer }
{
    match answer {
        Answer::Answered { len, code } => told(len, 0, code),
        Answer::TooSmall { needed } => too_small(needed),
        Answer::Skipped | Answer::OutOfMemory => told(0, 0, 0),
    }
}

fn listing_status(listing: Listing) -> u32
    ensures { result ≡ listing_status listing }
{
    match listing {
        Listing::Listed { len: _, count: _ } => DONE,
        Listing::NoGroup => REFUSED,
        Listing::BadPath => FAULT,
        Listing::TooSmall { needed: _ } => TOO_SMALL,
        Listing::OutOfMemory => OUT_OF_MEMORY,
    }
}

fn listing_info(listing: Listing) -> Info
    ensures { result ≡ listing_info listing }
{
    match listing {
        Listing::Listed { len, count } => told(len, count, 0),
        Listing::NoGroup => told(0, 0, NO_GROUP),
        Listing::BadPath => told(0, 0, BAD_PATH),
        Listing::TooSmall { needed } => too_small(needed),
        Listing::OutOfMemory => told(0, 0, 0),
    }
}

fn found_status(found: Found) -> u32
    ensures { result ≡ found_status found }
{
    match found {
        Found::There => DONE,
        Found::NoGroup => REFUSED,
        Found::BadPath => FAULT,
        Found::OutOfMemory => OUT_OF_MEMORY,
    }
}

fn found_info(found: Found) -> Info
    ensures { result ≡ found_info found }
{
    match found {
        Found::NoGroup => told(0, 0, NO_GROUP),
        Found::BadPath => told(0, 0, BAD_PATH),
        Found::There | Found::OutOfMemory => told(0, 0, 0),
    }
}

/// Makes an engine in a handle that has none.
#[unsafe(no_mangle)]
pub extern "C" fn mk0_open(alloc: Global, h: &mut Handle) -> u32
    ensures { IsOpened h.old.seal.held result h.new.seal.held }
{
    if let Some(engine) = h.take(alloc) {
        h.put(alloc, engine);
        return CLOSED;
    }
    let Ok(engine) = LineEngine::new(alloc) else {
        return OUT_OF_MEMORY;
    };
    let Ok(engine) = Box::new(alloc, engine) else {
        return OUT_OF_MEMORY;
    };
    h.put(alloc, engine);
    DONE
}

/// Frees the engine, if there is one.
#[unsafe(no_mangle)]
pub extern "C" fn mk0_close(alloc: Global, h: &mut Handle) -> u32
    ensures { ClosesHandle h.old.seal.held result h.new.seal.held }
{
    match h.take(alloc) {
        Some(_engine) => DONE,
        None => CLOSED,
    }
}

/// Answers one line of a trace.
#[unsafe(no_mangle)]
pub extern "C" fn mk0_line(
    alloc: Global,
    h: &mut Handle,
    number: u64,
    line: &[u8],
    out: &mut [u8],
    info: &mut Info,
) -> u32
    ensures { AnswersAt h.old.seal.held number (read_line line.now) out.new result info.new h.new.seal.held }
{
    let Some(engine) = h.take(alloc) else {
        *info = told(0, 0, 0);
        return CLOSED;
    };
    let mut engine = engine;
    let answer = engine.answer(alloc, number, line, out);
    h.put(alloc, engine);
    *info = info_of(answer);
    status_of(answer)
}

/// Undoes the newest recorded command.
#[unsafe(no_mangle)]
pub extern "C" fn mk0_undo(
    alloc: Global,
    h: &mut Handle,
    number: u64,
    out: &mut [u8],
    info: &mut Info,
) -> u32
    ensures { AnswersAt h.old.seal.held number (read_line (codes "undo")) out.new result info.new h.new.seal.held }
{
    mk0_line(alloc, h, number, b"undo", out, info)
}

/// How many recorded commands can be undone.
#[unsafe(no_mangle)]
pub extern "C" fn mk0_depth(alloc: Global, h: &mut Handle, depth: &mut usize) -> u32
    ensures { DepthAt h.old.seal.held result depth.new h.new.seal.held }
{
    let Some(engine) = h.take(alloc) else {
        *depth = 0;
        return CLOSED;
    };
    *depth = engine.depth();
    h.put(alloc, engine);
    DONE
}

/// Forgets the recorded commands.
#[unsafe(no_mangle)]
pub extern "C" fn mk0_forget(alloc: Global, h: &mut Handle) -> u32
    ensures { ForgetsAt h.old.seal.held result h.new.seal.held }
{
    let Some(engine) = h.take(alloc) else {
        return CLOSED;
    };
    let mut engine = engine;
    engine.forget();
    h.put(alloc, engine);
    DONE
}

/// Makes a copy of the engine in another handle that has none.
#[unsafe(no_mangle)]
pub extern "C" fn mk0_copy(alloc: Global, h: &mut Handle, to: &mut Handle) -> u32
    ensures { CopiesAt h.old.seal.held to.old.seal.held result h.new.seal.held to.new.seal.held }
{
    if let Some(engine) = to.take(alloc) {
        to.put(alloc, engine);
        return CLOSED;
    }
    let Some(engine) = h.take(alloc) else {
        return CLOSED;
    };
    let copy = engine.copy(alloc);
    h.put(alloc, engine);
    let Ok(copy) = copy else {
        return OUT_OF_MEMORY;
    };
    let Ok(copy) = Box::new(alloc, copy) else {
        return OUT_OF_MEMORY;
    };
    to.put(alloc, copy);
    DONE
}

/// The names of a group's children.
#[unsafe(no_mangle)]
pub extern "C" fn mk0_children(
    alloc: Global,
    h: &mut Handle,
    path: &[u8],
    out: &mut [u8],
    info: &mut Info,
) -> u32
    ensures { ListsAt (TellsChildrenOf (read_path path.now)) h.old.seal.held out.new result info.new h.new.seal.held }
{
    let Some(engine) = h.take(alloc) else {
        *info = told(0, 0, 0);
        return CLOSED;
    };
    let listing = engine.children(alloc, path, out);
    h.put(alloc, engine);
    *info = listing_info(listing);
    listing_status(listing)
}

/// The paths of all groups.
#[unsafe(no_mangle)]
pub extern "C" fn mk0_groups(alloc: Global, h: &mut Handle, out: &mut [u8], info: &mut Info) -> u32
    ensures { ListsAt TellsGroupsOf h.old.seal.held out.new result info.new h.new.seal.held }
{
    let Some(engine) = h.take(alloc) else {
        *info = told(0, 0, 0);
        return CLOSED;
    };
    let listing = engine.groups(alloc, out);
    h.put(alloc, engine);
    *info = listing_info(listing);
    listing_status(listing)
}

/// The paths of a group and of the groups below it.
#[unsafe(no_mangle)]
pub extern "C" fn mk0_subtree(
    alloc: Global,
    h: &mut Handle,
    path: &[u8],
    out: &mut [u8],
    info: &mut Info,
) -> u32
    ensures { ListsAt (TellsSubtreeOf (read_path path.now)) h.old.seal.held out.new result info.new h.new.seal.held }
{
    let Some(engine) = h.take(alloc) else {
        *info = told(0, 0, 0);
        return CLOSED;
    };
    let listing = engine.subtree(alloc, path, out);
    h.put(alloc, engine);
    *info = listing_info(listing);
    listing_status(listing)
}

/// The recorded commands from a place on as lines, oldest first.
#[unsafe(no_mangle)]
pub extern "C" fn mk0_history(
    alloc: Global,
    h: &mut Handle,
    from: usize,
    out: &mut [u8],
    info: &mut Info,
) -> u32
    ensures { ListsAt (TellsHistoryOf from) h.old.seal.held out.new result info.new h.new.seal.held }
{
    let Some(engine) = h.take(alloc) else {
        *info = told(0, 0, 0);
        return CLOSED;
    };
    let listing = engine.history(alloc, from, out);
    h.put(alloc, engine);
    *info = listing_info(listing);
    listing_status(listing)
}

/// Whether a group exists.
#[unsafe(no_mangle)]
pub extern "C" fn mk0_has_group(alloc: Global, h: &mut Handle, path: &[u8], info: &mut Info) -> u32
    ensures { FindsAt h.old.seal.held (read_path path.now) result info.new h.new.seal.held }
{
    let Some(engine) = h.take(alloc) else {
        *info = told(0, 0, 0);
        return CLOSED;
    };
    let found = engine.has_group(alloc, path);
    h.put(alloc, engine);
    *info = found_info(found);
    found_status(found)
}
