// Generated from tools/nodes/table.txt; edit that and run tools/nodes/generate.
// Fields of rows: operations of one operand, and `new` (ECMA-262, clause 13).

use crate::names::{FlatField, FlatSort};

pub static UNARY_EXPRESSION: [FlatField; 2] = [
    FlatField {
        name: "operator",
        sort: FlatSort::Word(&["+", "-", "!", "~", "typeof", "void", "delete"]),
    },
    FlatField {
        name: "argument",
        sort: FlatSort::Child,
    },
];

pub static UPDATE_EXPRESSION: [FlatField; 3] = [
    FlatField {
        name: "operator",
        sort: FlatSort::Word(&["++", "--"]),
    },
    FlatField {
        name: "prefix",
        sort: FlatSort::Flag,
    },
    FlatField {
        name: "argument",
        sort: FlatSort::Child,
    },
];

pub static NEW_EXPRESSION: [FlatField; 4] = [
    FlatField {
        name: "callee",
        sort: FlatSort::Child,
    },
    FlatField {
        name: "type_arguments",
        sort: FlatSort::Unread,
    },
    FlatField {
        name: "arguments",
        sort: FlatSort::List,
    },
    FlatField {
        name: "pure",
        sort: FlatSort::Flag,
    },
];
