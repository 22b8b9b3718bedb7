// Generated from tools/nodes/table.txt; edit that and run tools/nodes/generate.
// Fields of rows: choices between cases, and handlers (ECMA-262, 14.12 and 14.15).

use crate::names::{FlatField, FlatSort};

pub static SWITCH_STATEMENT: [FlatField; 2] = [
    FlatField {
        name: "discriminant",
        sort: FlatSort::Child,
    },
    FlatField {
        name: "cases",
        sort: FlatSort::List,
    },
];

pub static SWITCH_CASE: [FlatField; 2] = [
    FlatField {
        name: "test",
        sort: FlatSort::Child,
    },
    FlatField {
        name: "consequent",
        sort: FlatSort::List,
    },
];

pub static TRY_STATEMENT: [FlatField; 3] = [
    FlatField {
        name: "block",
        sort: FlatSort::Child,
    },
    FlatField {
        name: "handler",
        sort: FlatSort::Child,
    },
    FlatField {
        name: "finalizer",
        sort: FlatSort::Child,
    },
];

pub static CATCH_CLAUSE: [FlatField; 3] = [
    FlatField {
        name: "param",
        sort: FlatSort::Child,
    },
    FlatField {
        name: "type_annotation",
        sort: FlatSort::Unread,
    },
    FlatField {
        name: "body",
        sort: FlatSort::Child,
    },
];
