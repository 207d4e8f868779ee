//! The answer to a file whose model is asked for.

ghost use Rattle.std.specs.Prelude.{◌≤◌, IfOk};
ghost use Rattle.vr_app.specs.Answers.{AnswersReply, IsOfFile};
ghost use Rattle.vr_app.specs.Reply as replies;
ghost use Rattle.vr_tsplib.specs.Imported as files;

use crate::answer::{Answer, answer_of_tree, refused};
use crate::status::Status;
use std::alloc::Global;
use vr_json::ReadFail;
use vr_model::NoMemory;
use vr_tsplib::import;

// The answer to the bytes of a file.
fn answer_bytes(alloc: Global, vehicles: u32, bytes: &[u8]) -> Result<Answer, NoMemory>
    requires some { 1 ≤ vehicles }
    requires few { vehicles ≤ 100 }
    ensures reply { IfOk result (AnswersReply (replies.reply_to_imported (files.imported vehicles bytes.now))) }
    ensures status { IfOk result (λ a. IsOfFile a.status) }
{
    match import(alloc, bytes, vehicles) {
        Ok(tree) => answer_of_tree(alloc, Status::Done, &tree),
        Err(ReadFail::Refused(fault)) => refused(alloc, &fault),
        Err(ReadFail::NoMemory) => Err(NoMemory),
    }
}

/// The answer to a TSPLIB file, whose bytes are let go. It is the line of its model with this many vehicles, 1 to 100,
/// or the first fault of the file. `NoMemory` if out of memory.
pub fn answer_file(alloc: Global, vehicles: u32, bytes: Vec<u8>) -> Result<Answer, NoMemory>
    requires some { 1 ≤ vehicles }
    requires few { vehicles ≤ 100 }
    ensures reply { IfOk result (AnswersReply (replies.reply_to_imported (files.imported vehicles bytes.items))) }
    ensures status { IfOk result (λ a. IsOfFile a.status) }
{
    answer_bytes(alloc, vehicles, &bytes)
}
