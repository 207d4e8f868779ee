//! Values and answers for each reader, and the line of a tree.

use serde_json::Value;
use std::alloc::Global;
use std::test::Fail;
use vr_json::{
    Array, Fields, Path, ReadFail, Tree, Whole, flag, known, list, text, to_line, whole, word,
};
use vr_model::{NoMemory, Seq};
use vr_samples::all_hold;

// One to three digits.
const DIGITS: Array<Whole> = Array {
    lo: 1,
    hi: 3,
    entry: Whole { lo: 0, hi: 9 },
};

// What is asked of a value.
#[derive(Clone, Copy)]
enum Call {
    // a whole number of 0 to 9
    Whole,
    // one of two words: its number
    Word,
    // 1 for true
    Flag,
    // a text of one to four bytes: how many
    Text,
    // one or two entries: how many
    List,
    // the field "b", of one to three digits: how many
    Required,
    // the same; 0 if it is not there
    Optional,
    // no field but "b": 0
    Known,
}

fn answer(alloc: Global, call: Call, value: &Value, root: &Path) -> Result<usize, ReadFail> {
    let fields = Fields {
        alloc,
        value,
        path: root,
    };
    match call {
        Call::Whole => Ok(whole(alloc, value, 0, 9, root)? as usize),
        Call::Word => word(alloc, value, &["any", "lifo"], root),
        Call::Flag => Ok(usize::from(flag(alloc, value, root)?)),
        Call::Text => Ok(text(alloc, value, 1, 4, root)?.as_str().len()),
        Call::List => Ok(list(alloc, value, 1, 2, root)?.len()),
        Call::Required => Ok(fields.required("b", &DIGITS)?.len()),
        Call::Optional => Ok(fields.optional_array("b", &DIGITS)?.len()),
        Call::Known => {
            known(alloc, value, &["b"], root)?;
            Ok(0)
        }
    }
}

// A call on the value of a text, and what it gives, or the code and the path with which it is refused.
type Row = (
    &'static str,
    Call,
    &'static str,
    Result<usize, (u8, &'static str)>,
);

#[rattlefmt::skip]
static ROWS: [Row; 31] = [
    ("the greatest number", Call::Whole, "9", Ok(9)),
    ("too great a number", Call::Whole, "10", Err((14, ""))),
    ("too small a number", Call::Whole, "-1", Err((14, ""))),
    ("a number with a fraction", Call::Whole, "5.0", Err((12, ""))),
    ("a zero with a sign", Call::Whole, "-0", Err((12, ""))),
    ("a number beyond 64 bits", Call::Whole, "9223372036854775808", Err((12, ""))),
    ("no number", Call::Whole, "null", Err((11, ""))),
    ("a word", Call::Word, "\"lifo\"", Ok(1)),
    ("another word", Call::Word, "\"lif\"", Err((17, ""))),
    ("no word", Call::Word, "[1]", Err((11, ""))),
    ("a flag", Call::Flag, "true", Ok(1)),
    ("no flag", Call::Flag, "7", Err((11, ""))),
    ("a text", Call::Text, "\"lifo\"", Ok(4)),
    ("too long a text", Call::Text, "\"lifos\"", Err((15, ""))),
    ("an empty text", Call::Text, "\"\"", Err((15, ""))),
    ("no text", Call::Text, "7", Err((11, ""))),
    ("two entries", Call::List, "[1,2]", Ok(2)),
    ("no entry", Call::List, "[]", Err((15, ""))),
    ("three entries", Call::List, "[1,2,3]", Err((15, ""))),
    ("no list", Call::List, "7", Err((11, ""))),
    ("a field", Call::Required, "{\"b\":[1,2]}", Ok(2)),
    ("the first bad entry", Call::Required, "{\"b\":[1,10,-1]}", Err((14, "/b/1"))),
    ("an empty field", Call::Required, "{\"b\":[]}", Err((15, "/b"))),
    ("a field that is not there", Call::Required, "{\"z\":0}", Err((10, "/b"))),
    ("no fields", Call::Required, "[]", Err((11, ""))),
    ("a field that may be there", Call::Optional, "{\"b\":[1,2]}", Ok(2)),
    ("a field that is left out", Call::Optional, "{\"z\":0}", Ok(0)),
    ("a field of null", Call::Optional, "{\"b\":null}", Err((11, "/b"))),
    ("the first of unknown keys", Call::Known, "{\"z\":0,\"\":1,\"a\\/b\":2}", Err((13, "/"))),
    ("an unknown key as it is read", Call::Known, "{\"z\":0,\"b\":[9],\"a\\/\\\"\":2}", Err((13, "/a/\""))),
    ("known keys alone", Call::Known, "{\"b\":0}", Ok(0)),
];

// Whether a call is refused with this code at this path.
pub fn is_refused(fail: &ReadFail, code: u8, path: &str) -> bool {
    match fail {
        ReadFail::Refused(fault) => fault.code == code && fault.path.as_str() == path,
        ReadFail::NoMemory => false,
    }
}

fn answers(alloc: Global, row: &Row, value: &Value) -> bool {
    match (answer(alloc, row.1, value, &Path::root(alloc)), row.3) {
        (Ok(found), Ok(wanted)) => found == wanted,
        (Err(fail), Err((code, path))) => is_refused(&fail, code, path),
        _ => false,
    }
}

fn holds(alloc: Global, row: &Row) -> bool {
    match Value::from_str(alloc, row.2) {
        Ok(value) => answers(alloc, row, &value),
        Err(_) => false,
    }
}

#[test]
fn values_are_read(rt: HostRuntime) -> Result<(), Fail> {
    all_hold(&ROWS, &|row: &Row| (row.0, holds(rt.alloc(), row)))
}

// The line of a tree in which a field was put twice.
fn printed(alloc: Global) -> Result<Seq<u8>, NoMemory> {
    let mut tree = Tree::new(alloc);
    tree.put("tries", Value::from(3u64))?;
    tree.put("cost", Value::from(1i64))?;
    tree.put("cost", Value::from(-7i64))?;
    to_line(alloc, &tree.finish())
}

#[test]
fn prints_a_tree(rt: HostRuntime) {
    match printed(rt.alloc()) {
        Ok(line) => assert!(rt; line.as_slice() == b"{\"cost\":-7,\"tries\":3}\n".as_slice()),
        Err(_) => assert!(rt; false),
    }
}
