//! The call that does what words order.

ghost use Rattle.std.specs.Prelude.{◌≡◌, ◌≢◌, ◌⊎◌, ◌<◌, length};
ghost use Rattle.library_calls.specs.Refusals.{first_refused, none_there, ok, out_of_memory, too_small, unknown};
ghost use Rattle.sfq_web.specs.Servings.{AreWritten, HandsOutPath, HandsOutTexts, IsMisuseOf, IsPathOf, IsUnfit, LacksRoom, MissesGiven, ServesGiven, texts_in};

use crate::handed_in::{HandedIn, serve_given};
use crate::handing::Missed;
use crate::served::{Served, Written, add};
use library_calls::hand_out;
use std::alloc::Global;

/// What is said about a text that is handed out.
#[derive(Clone, Copy)]
#[repr(C)]
pub struct Said {
    /// Its length.
    pub size: usize,
    /// How many of its bytes are for standard output.
    pub out: usize,
    /// How many of the bytes after these are for standard error; the rest explains a fault.
    pub err: usize,
    /// The status of the command; or what a missing file is for it: 0 the schema, 1 a table, 2 a query, 3 a geometry, 4 pairs.
    pub code: u8,
}

/// Does what the words of a command line order, as `sfq` does, over the files that are handed in with them, and hands out what it
/// writes: standard output, standard error, and what explains a fault, one after another.
///
/// The status is 0 if the order was done or failed, and 1 if the words are none. If it is 6, the order needs a file that isn't
/// handed in, whose path is handed out: read it, and call again. It is 5 if `room` is too small for what would be handed out, whose
/// size is said; 4 if a word or path isn't UTF-8, or paths, texts and numbers aren't equally many; and 3 if memory ran out; after
/// these two, what is said is as it was (SQL, the query; 06-103r4, 6.1 and 7.2; the order of all else: this project's choice).
#[unsafe(no_mangle)]
pub extern "C" fn sfq_proved_serve(
    alloc: Global,
    handed: &HandedIn<'_>,
    room: &mut [u8],
    said: &mut Said,
) -> u32
    ensures served { result ≡ ok → HandsOutTexts (ServesGiven handed.now) room.old room.new said.new ok }
    ensures misused { result ≡ first_refused
        → HandsOutTexts (IsMisuseOf (texts_in handed.now.words)) room.old room.new said.new ok }
    ensures missing { result ≡ none_there → HandsOutPath (MissesGiven handed.now) room.old room.new said.new ok }
    ensures unfit { result ≡ unknown → IsUnfit handed.now }
    ensures kept { result ≢ ok → result ≢ first_refused → result ≢ none_there → room.new ≡ room.old }
    ensures unsaid { (result ≡ unknown) ⊎ (result ≡ out_of_memory) → said.new ≡ said.old }
    ensures no_room { result ≡ too_small → length room.old < said.new.size }
    ensures size { result ≡ too_small → LacksRoom handed.now room.old room.new said.new }
    ensures status { (result ≡ ok) ⊎ (result ≡ first_refused) ⊎ (result ≡ out_of_memory) ⊎ (result ≡ unknown)
        ⊎ (result ≡ too_small) ⊎ (result ≡ none_there) }
{
    match serve_given(alloc, handed) {
        Ok(Some(Served::Done(written))) => hand_out_texts(written, 0, room, said),
        Ok(Some(Served::Misused(written))) => hand_out_texts(written, 1, room, said),
        Ok(Some(Served::Missing(missed))) => hand_out_path(&missed, room, said),
        Ok(None) => 4,
        Err(_) => 3,
    }
}

/// Hands out what a command wrote, if `room` is large enough; then the status is the one that says it is done.
fn hand_out_texts(written: Written, done: u32, room: &mut [u8], said: &mut Said) -> u32
    requires { done < 2 }
    ensures texts { result ≡ done → HandsOutTexts (AreWritten written) room.old room.new said.new ok }
    ensures kept { result ≢ done → room.new ≡ room.old }
    ensures unsaid { result ≡ out_of_memory → said.new ≡ said.old }
    ensures no_room { result ≡ too_small → length room.old < said.new.size }
    ensures size { result ≡ too_small → HandsOutTexts (AreWritten written) room.old room.new said.new too_small }
    ensures status { (result ≡ done) ⊎ (result ≡ out_of_memory) ⊎ (result ≡ too_small) }
{
    let Written {
        status,
        mut out,
        err,
        more,
    } = written;
    let out_size = out.bytes().len();
    let err_size = err.bytes().len();
    if add(err.bytes(), &mut out).is_err() || add(more.bytes(), &mut out).is_err() {
        return 3;
    }
    said.code = status;
    said.out = out_size;
    said.err = err_size;
    if hand_out(out.bytes(), room, &mut said.size) != 0 {
        return 5;
    }
    done
}

/// Hands out the path of a missing file, if `room` is large enough.
fn hand_out_path(missed: &Missed, room: &mut [u8], said: &mut Said) -> u32
    ensures path { result ≡ none_there → HandsOutPath (IsPathOf missed.now) room.old room.new said.new ok }
    ensures kept { result ≢ none_there → room.new ≡ room.old }
    ensures unsaid { result ≡ out_of_memory → said.new ≡ said.old }
    ensures no_room { result ≡ too_small → length room.old < said.new.size }
    ensures size { result ≡ too_small → HandsOutPath (IsPathOf missed.now) room.old room.new said.new too_small }
    ensures status { (result ≡ none_there) ⊎ (result ≡ out_of_memory) ⊎ (result ≡ too_small) }
{
    let Some(path) = &missed.path else {
        return 3;
    };
    said.code = missed.role;
    said.out = 0;
    said.err = 0;
    if hand_out(path.as_bytes(), room, &mut said.size) != 0 {
        return 5;
    }
    6
}
