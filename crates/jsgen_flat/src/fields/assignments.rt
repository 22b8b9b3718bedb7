// Generated from tools/nodes/table.txt; edit that and run tools/nodes/generate.
// Fields of rows: conditional expressions, sequences and assignments (ECMA-262, 13.14 to 13.16).

use crate::names::{FlatField, FlatSort};

pub static CONDITIONAL_EXPRESSION: [FlatField; 3] = [
    FlatField {
        name: "test",
        sort: FlatSort::Child,
    },
    FlatField {
        name: "consequent",
        sort: FlatSort::Child,
    },
    FlatField {
        name: "alternate",
        sort: FlatSort::Child,
    },
];

pub static SEQUENCE_EXPRESSION: [FlatField; 1] = [FlatField {
    name: "expressions",
    sort: FlatSort::List,
}];

pub static ASSIGNMENT_EXPRESSION: [FlatField; 3] = [
    FlatField {
        name: "operator",
        sort: FlatSort::Word(&[
            "=", "+=", "-=", "*=", "/=", "%=", "**=", "<<=", ">>=", ">>>=", "|=", "^=", "&=",
            "||=", "&&=", "??=",
        ]),
    },
    FlatField {
        name: "left",
        sort: FlatSort::Child,
    },
    FlatField {
        name: "right",
        sort: FlatSort::Child,
    },
];
