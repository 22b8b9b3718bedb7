// Generated from tools/nodes/table.txt; edit that and run tools/nodes/generate.
// Fields of rows: patterns that are bound (ECMA-262, 14.3.3).

use crate::names::{FlatField, FlatSort};

pub static OBJECT_PATTERN: [FlatField; 2] = [
    FlatField {
        name: "properties",
        sort: FlatSort::List,
    },
    FlatField {
        name: "rest",
        sort: FlatSort::Child,
    },
];

pub static BINDING_PROPERTY: [FlatField; 3] = [
    FlatField {
        name: "key",
        sort: FlatSort::Child,
    },
    FlatField {
        name: "value",
        sort: FlatSort::Child,
    },
    FlatField {
        name: "computed",
        sort: FlatSort::Flag,
    },
];

pub static BINDING_REST_ELEMENT: [FlatField; 1] = [FlatField {
    name: "argument",
    sort: FlatSort::Child,
}];

pub static ARRAY_PATTERN: [FlatField; 2] = [
    FlatField {
        name: "elements",
        sort: FlatSort::List,
    },
    FlatField {
        name: "rest",
        sort: FlatSort::Child,
    },
];

pub static ASSIGNMENT_PATTERN: [FlatField; 2] = [
    FlatField {
        name: "left",
        sort: FlatSort::Child,
    },
    FlatField {
        name: "right",
        sort: FlatSort::Child,
    },
];
