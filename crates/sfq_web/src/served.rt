//! Does what the words of a command line order, over files that are handed in.

ghost use Rattle.std.specs.Prelude.{◌≡◌, ◌⊎◌, ◌++◌, [], false, IfOk, OnOk, map};
ghost use Rattle.command_line.specs.Orders.{asks_why};
ghost use Rattle.sfq_web.specs.HandedFiles.{OpensAs};
ghost use Rattle.sfq_web.specs.Servings.{IsDone, IsMisusedAs, IsServed, ServesHanded, asking, handed, unread_status};
ghost use Rattle.streams.specs.MemorySinks.{memory_bytes};

use crate::handing::{Handing, Missed};
use command_line::{Misuse, Order, order};
use engine::serve_observed;
use std::alloc::{AllocError, Global};
use streams::{MemorySink, Unobserved, put_all};
use text_commands::File;

/// The status of a command that can't open or read a file.
const UNREAD: u8 = 6;

/// What a command wrote, and its status.
#[derive(Drop)]
pub struct Written {
    /// The status.
    pub status: u8,
    /// Standard output.
    pub out: MemorySink,
    /// Standard error.
    pub err: MemorySink,
    /// What explains a fault, or notes on a query, in colour at a terminal: it is written to standard error too, after the rest.
    pub more: MemorySink,
}

/// What came of the words of a command line.
#[derive(Drop)]
pub enum Served {
    /// They are an order, which was done or failed.
    Done(Written),
    /// They are no order: `clap` says why, or gives the help that they ask for.
    Misused(Written),
    /// The order can't be done without a file that isn't handed in.
    Missing(Missed),
}

/// Does what the words of a command line order, the program's name first, over files that are handed in. If the caller asks why,
/// the order does too. It fails only when memory runs out.
pub fn serve_words<'w>(
    alloc: Global,
    words: &'w [&'w str],
    asks: bool,
    handing: &mut Handing<'_>,
) -> Result<Served, AllocError>
    ensures { IfOk result (IsServed (map (λ word. word.now) words.entry.now) asks (handed handing.old)) }
{
    match order(alloc, words) {
        Ok(order) => serve_asked(alloc, asked(order, asks), handing),
        Err(misuse) => misused(alloc, &misuse),
    }
}

/// An order, which asks why if the caller does.
fn asked(order: Order, asks: bool) -> Order
    ensures { result ≡ asking asks order }
{
    if asks { order.with_why() } else { order }
}

/// Does what an order says over files that are handed in.
fn serve_asked(alloc: Global, order: Order, handing: &mut Handing<'_>) -> Result<Served, AllocError>
    ensures { IfOk result (IsDone order (handed handing.old)) }
{
    let mut out = MemorySink::new(alloc);
    let mut err = MemorySink::new(alloc);
    let mut more = MemorySink::new(alloc);
    let (files, input) = (handing.files, handing.input);
    let status = serve_handed(alloc, &order, handing, &mut out, &mut err, &mut more);
    if status == UNREAD
        && let Some(missed) = handing.take_missed(files, input)
    {
        return Ok(Served::Missing(missed));
    }
    // A sink over memory fails only when memory runs out.
    if out.failures() != 0 || err.failures() != 0 {
        return Err(AllocError);
    }
    let more = explained(alloc, &order, status, handing, more)?;
    Ok(Served::Done(Written {
        status,
        out,
        err,
        more,
    }))
}

/// Does what an order says, and returns its status. To `more` it writes what explains a fault of the schema, a table, the query or
/// a geometry's text, or notes on a check or a query, if the order asks why. The files opened are those that are handed in.
fn serve_handed(
    alloc: Global,
    order: &Order,
    handing: &mut Handing<'_>,
    out: &mut MemorySink,
    err: &mut MemorySink,
    more: &mut MemorySink,
) -> u8
    ensures serves { ServesHanded out.old out.new more.old more.new (handed handing.old) order.now result err.old err.new }
    ensures unasked { asks_why order.now ≡ false → more.new ≡ more.old }
{
    let opener = |file: File<'_>|
        ensures { OpensAs (handed handing.entry.now) file.entry result (handed handing.exit.now) }
    { handing.open(alloc, file) };
    serve_observed(alloc, order, opener, out, err, more, &mut Unobserved)
}

/// What explains the end of an order that has ended with a status, if the order asks why. If nothing is said yet, it is why a file
/// couldn't be opened or read.
fn explained(
    alloc: Global,
    order: &Order,
    status: u8,
    handing: &mut Handing<'_>,
    mut said: MemorySink,
) -> Result<MemorySink, AllocError>
    ensures kept { IfOk result (λ more. (more ≡ said) ⊎ ((memory_bytes said ≡ []) × (status ≡ unread_status))) }
    ensures unasked { IfOk result (λ more. asks_why order.now ≡ false → more ≡ said) }
{
    if said.bytes().is_empty() && order.asks_why() && status == UNREAD {
        add(handing.reason(alloc), &mut said)?;
    }
    Ok(said)
}

/// What `clap` says about words that are no order: help and the version are for standard output, all else for standard error.
fn misused(alloc: Global, misuse: &Misuse) -> Result<Served, AllocError>
    ensures { IfOk result (IsMisusedAs misuse.now) }
{
    let text = misuse.to_string(alloc)?;
    let status = misuse.status();
    let mut said = MemorySink::new(alloc);
    add(text.as_bytes(), &mut said)?;
    let nothing = MemorySink::new(alloc);
    let (out, err) = if status == 0 {
        (said, nothing)
    } else {
        (nothing, said)
    };
    Ok(Served::Misused(Written {
        status,
        out,
        err,
        more: MemorySink::new(alloc),
    }))
}

/// Adds a text to a sink over memory. It fails only when memory runs out.
pub(crate) fn add(text: &[u8], sink: &mut MemorySink) -> Result<(), AllocError>
    ensures { OnOk result (memory_bytes sink.new ≡ memory_bytes sink.old ++ text.now) }
{
    match put_all(sink, text) {
        Ok(()) => Ok(()),
        Err(_) => Err(AllocError),
    }
}
