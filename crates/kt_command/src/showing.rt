//! What a store in a file holds, told of a copy of it.
//! Cited by request.rt.
ghost use Rattle.std.specs.Prelude.{◌≡◌, IfErr, IfOk, IsTrue};
ghost use Rattle.kt_core.specs.Store.{store_value};
ghost use Rattle.kt_command.specs.Shown.{EndsShowing, EndsShown, IsRefusedRead, IsShownOf};

use crate::request::refuse_store;
use crate::shows::Shows;
use crate::status::{DONE, end_replay};
use kt_scene::{Sink, write_text};
use kt_show::{show, show_json};
use kt_store::{CkptStore, StoreError};
use std::alloc::Global;
use std::fmt::Display;
use std::io::Write;

/// Opens a copy of the store at the path, and writes what it holds, in words or as JSON.
pub(crate) fn show_copy<S: CkptStore + Drop, G: Display + Drop, O: Shows<S, G>, W: Write, E: Write>(
    opener: O,
    alloc: Global,
    path: &str,
    is_json: bool,
    writer: &mut Sink<W>,
    errors: &mut E,
) -> u8
    ensures told { EndsShown S.CkptStore (O.gives_copy opener) path.now is_json writer.old writer.new result }
    ensures done_without_a_word { result ≡ DONE → errors.new ≡ errors.old }
{
    match opener.open_copy(path) {
        Ok(store) => show_store::<S, W, E>(alloc, store, is_json, writer, errors),
        Err(fault) => refuse_store(&fault, errors),
    }
}

/// Writes what the store holds.
fn show_store<S: CkptStore + Drop, W: Write, E: Write>(
    alloc: Global,
    store: S,
    is_json: bool,
    writer: &mut Sink<W>,
    errors: &mut E,
) -> u8
    ensures told { EndsShowing S.CkptStore store is_json writer.old writer.new result }
    ensures done_without_a_word { result ≡ DONE → errors.new ≡ errors.old }
{
    let mut store = store;
    match shown(alloc, &mut store, is_json) {
        Ok(text) => end_replay(write_text(writer, &text), errors),
        Err(why) => refuse_store(&why, errors),
    }
}

/// What the store holds, in words or as JSON.
fn shown<S: CkptStore>(alloc: Global, store: &mut S, is_json: bool) -> Result<Vec<u8>, StoreError>
    ensures text { IfOk result (λ text.
        IsShownOf is_json (store_value S.CkptStore store.old) (store_value S.CkptStore store.new) text.items) }
    ensures cause { IfErr result (IsRefusedRead (store_value S.CkptStore store.new)) }
{
    if is_json {
        show_json(alloc, store)
    } else {
        show(alloc, store)
    }
}
