//! Files of TSPLIB become trees, or are refused with the code and the line of their first flaw.

use crate::values::is_refused;
use serde_json::Value;
use std::alloc::Global;
use std::test::Fail;
use vr_samples::all_hold;
use vr_tsplib::{import, nearest_root};

// Three nodes in the plane.
const PLANE: &str =
    "NAME : t3\nTYPE : CVRP\nDIMENSION : 3\nEDGE_WEIGHT_TYPE : EUC_2D\nCAPACITY : 10\n\
NODE_COORD_SECTION\n1 0 0\n2 3 4\n3 1 1\nDEMAND_SECTION\n1 0\n2 4\n3 5\nDEPOT_SECTION\n1\n-1\nEOF\n";

// The same with tabs, carriage returns, empty lines, zeros after points, and no end.
const SPACED: &str =
    "NAME\t:\tt3\r\nTYPE\t:\tCVRP\r\n\r\nDIMENSION\t:\t3.00\r\nEDGE_WEIGHT_TYPE:EUC_2D\r\n\
COMMENT : one : of\r\nCOMMENT:\r\nCAPACITY\t:\t0010\r\n\
NODE_COORD_SECTION\r\n1\t0.\t0\r\n \t\r\n2\t3\t4\r\n3\t1\t1.0\r\n\
DEMAND_SECTION\r\n1\t-0\r\n2\t4\r\n3\t5\r\nDEPOT_SECTION\r\n1\r\n-1.0\r";

const PLANE_TREE: &str = "{\"dimensions\":[{\"capacity\":10,\"evaluators\":[{\"values\":[0,4,5]}],\
\"fix_start\":true,\"name\":\"load\",\"slack_max\":0}],\"format\":1,\"matrices\":[[[0,5,1],[5,0,4],[1,4,0]]],\
\"nodes\":3,\"vehicles\":[{\"end\":0,\"start\":0}]}";

// Rows of lower weights over two lines, the depot 2, and text after the end.
const LOWER: &str =
    "TYPE : CVRP\nDIMENSION : 3\nEDGE_WEIGHT_TYPE : EXPLICIT\nEDGE_WEIGHT_FORMAT : LOWER_ROW\n\
CAPACITY : 9\nEDGE_WEIGHT_SECTION\n7\n8 9\nDEMAND_SECTION\n3 2\n2 0\n1 1\nDEPOT_SECTION\n2\n-1\nEOF\nnothing: here\n";

const LOWER_TREE: &str = "{\"dimensions\":[{\"capacity\":9,\"evaluators\":[{\"values\":[1,0,2]}],\
\"fix_start\":true,\"name\":\"load\",\"slack_max\":0}],\"format\":1,\"matrices\":[[[0,7,8],[7,0,9],[8,9,0]]],\
\"nodes\":3,\"vehicles\":[{\"end\":1,\"start\":1}]}";

// A full matrix, which need not be symmetric; its section is the last one.
const FULL: &str =
    "TYPE : CVRP\nDIMENSION : 2\nEDGE_WEIGHT_TYPE : EXPLICIT\nEDGE_WEIGHT_FORMAT : FULL_MATRIX\n\
CAPACITY : 9\nDEMAND_SECTION\n1 0\n2 1\nDEPOT_SECTION\n1\n-1\nEDGE_WEIGHT_SECTION\n0 1 2\n3\n";

const FULL_TREE: &str = "{\"dimensions\":[{\"capacity\":9,\"evaluators\":[{\"values\":[0,1]}],\
\"fix_start\":true,\"name\":\"load\",\"slack_max\":0}],\"format\":1,\"matrices\":[[[0,1],[2,3]]],\
\"nodes\":2,\"vehicles\":[{\"end\":0,\"start\":0}]}";

// A file, and the text of its tree or the code and the path with which it is refused.
type Row = (
    &'static str,
    &'static str,
    Result<&'static str, (u8, &'static str)>,
);

#[rattlefmt::skip]
static ROWS: [Row; 36] = [
    ("distances in the plane", PLANE, Ok(PLANE_TREE)),
    ("other blanks", SPACED, Ok(PLANE_TREE)),
    ("lower weights", LOWER, Ok(LOWER_TREE)),
    ("a full matrix", FULL, Ok(FULL_TREE)),
    ("an unknown keyword", "TYPE : CVRP\nSIZE : 3\n", Err((40, "/2"))),
    ("two keywords", "NAME TYPE : CVRP\n", Err((40, "/1"))),
    ("no keyword", ": CVRP\n", Err((40, "/1"))),
    ("an unknown section", "\n\nTOUR_SECTION\n", Err((40, "/3"))),
    ("a name and more", "EOF now\n", Err((40, "/1"))),
    ("an end with a colon", "EOF :\n", Err((40, "/1"))),
    ("a value of two words", "TYPE : CVRP TSP\n", Err((40, "/1"))),
    ("a value of no word", "EDGE_WEIGHT_TYPE :\n", Err((40, "/1"))),
    ("no number", "DIMENSION : 3.5\n", Err((40, "/1"))),
    ("16 digits", "CAPACITY : 0000000000000001\n", Err((40, "/1"))),
    ("a row of four", "DIMENSION : 3\nNODE_COORD_SECTION\n1 2 3 4\n", Err((40, "/3"))),
    ("a fraction", "DIMENSION : 3\nNODE_COORD_SECTION\n2 3.5 4\n", Err((40, "/3"))),
    ("a keyword in a section", "DIMENSION : 3\nDEMAND_SECTION\nNAME : x\n", Err((40, "/3"))),
    ("too many weights",
     "DIMENSION : 2\nEDGE_WEIGHT_FORMAT : LOWER_ROW\nEDGE_WEIGHT_SECTION\n1 -1\n", Err((40, "/4"))),
    ("a keyword again", "TYPE : CVRP\nTYPE : TSP\n", Err((41, "/2"))),
    ("an unused keyword again", "NAME :\nNAME :\n", Err((41, "/2"))),
    ("a section again", "DIMENSION : 1\nDEMAND_SECTION\n1 0\nDEMAND_SECTION\n", Err((41, "/4"))),
    ("another type", "TYPE : TSP\n", Err((42, "/1"))),
    ("another weight type", "EDGE_WEIGHT_TYPE : GEO\n", Err((42, "/1"))),
    ("another format", "EDGE_WEIGHT_FORMAT : UPPER_ROW\n", Err((42, "/1"))),
    ("too many nodes", "DIMENSION : 1001\n", Err((43, "/1"))),
    ("too great a capacity", "CAPACITY : 68719476737\n", Err((43, "/1"))),
    ("too far away", "DIMENSION : 1\nNODE_COORD_SECTION\n1 -1000001 0\n", Err((43, "/3"))),
    ("no such depot", "DIMENSION : 1\nDEPOT_SECTION\n-1\n", Err((43, "/3"))),
    ("a node again", "DIMENSION : 2\nNODE_COORD_SECTION\n2 0 0\n2 1 1\n", Err((44, "/4"))),
    ("a demand again", "DIMENSION : 2\nDEMAND_SECTION\n1 0\n1 0\n", Err((44, "/4"))),
    ("a second depot", "DIMENSION : 2\nDEPOT_SECTION\n1\n2\n", Err((44, "/4"))),
    ("a section before the nodes", "DEPOT_SECTION\n", Err((45, "/1"))),
    ("weights before their format",
     "DIMENSION : 1\nEDGE_WEIGHT_FORMAT : FUNCTION\nEDGE_WEIGHT_SECTION\n", Err((45, "/3"))),
    ("an end within a section", "DIMENSION : 2\nDEMAND_SECTION\n1 0\n", Err((45, "/0"))),
    ("nothing at all", "", Err((45, "/0"))),
    ("a demand of the depot",
     "TYPE : CVRP\nDIMENSION : 1\nCAPACITY : 1\nEDGE_WEIGHT_TYPE : EUC_2D\nNODE_COORD_SECTION\n1 0 0\n\
DEMAND_SECTION\n1 1\nDEPOT_SECTION\n1\n-1\n", Err((46, "/0"))),
];

// Whether the compact text of a tree is this one.
fn is_text(alloc: Global, tree: &Value, text: &str) -> bool {
    match tree.to_string(alloc) {
        Ok(printed) => printed.as_str() == text,
        Err(_) => false,
    }
}

// Whether the import of a row's file gives what the row says.
fn is_answered(alloc: Global, row: &Row) -> bool {
    match (import(alloc, row.1.as_bytes(), 1), row.2) {
        (Ok(tree), Ok(text)) => is_text(alloc, &tree, text),
        (Err(fail), Err((code, path))) => is_refused(&fail, code, path),
        _ => false,
    }
}

#[test]
fn files_are_imported(rt: HostRuntime) -> Result<(), Fail> {
    all_hold(&ROWS, &|row: &Row| (row.0, is_answered(rt.alloc(), row)))
}

// A square, the last numbers with a root that is rounded down and the first with one that is rounded up, and the
// greatest number.
#[test]
fn roots_are_rounded(rt: HostRuntime) {
    assert!(rt; nearest_root(0) == 0 && nearest_root(25) == 5);
    assert!(rt; nearest_root(30) == 5 && nearest_root(31) == 6);
    assert!(rt; nearest_root(8_000_000_000_000) == 2_828_427);
}
