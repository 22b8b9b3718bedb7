// Generated from tools/nodes/table.txt; edit that and run tools/nodes/generate.
// Fields of rows: arrays and objects (ECMA-262, 13.2.4 and 13.2.5), and what is spread in them and in arguments.

use crate::names::{FlatField, FlatSort};

pub static SPREAD_ELEMENT: [FlatField; 1] = [FlatField {
    name: "argument",
    sort: FlatSort::Child,
}];

pub static ARRAY_EXPRESSION: [FlatField; 1] = [FlatField {
    name: "elements",
    sort: FlatSort::List,
}];

pub static OBJECT_PROPERTY: [FlatField; 6] = [
    FlatField {
        name: "kind",
        sort: FlatSort::Word(&["init", "get", "set"]),
    },
    FlatField {
        name: "key",
        sort: FlatSort::Child,
    },
    FlatField {
        name: "value",
        sort: FlatSort::Child,
    },
    FlatField {
        name: "method",
        sort: FlatSort::Flag,
    },
    FlatField {
        name: "shorthand",
        sort: FlatSort::Flag,
    },
    FlatField {
        name: "computed",
        sort: FlatSort::Flag,
    },
];

pub static OBJECT_EXPRESSION: [FlatField; 1] = [FlatField {
    name: "properties",
    sort: FlatSort::List,
}];
