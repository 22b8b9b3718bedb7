// Generated from tools/nodes/table.txt; edit that and run tools/nodes/generate.
// Fields of rows: patterns that are given values (ECMA-262, 13.15.5).

use crate::names::{FlatField, FlatSort};

pub static ARRAY_ASSIGNMENT_TARGET: [FlatField; 2] = [
    FlatField {
        name: "elements",
        sort: FlatSort::List,
    },
    FlatField {
        name: "rest",
        sort: FlatSort::Child,
    },
];

pub static OBJECT_ASSIGNMENT_TARGET: [FlatField; 2] = [
    FlatField {
        name: "properties",
        sort: FlatSort::List,
    },
    FlatField {
        name: "rest",
        sort: FlatSort::Child,
    },
];

pub static ASSIGNMENT_TARGET_WITH_DEFAULT: [FlatField; 2] = [
    FlatField {
        name: "binding",
        sort: FlatSort::Child,
    },
    FlatField {
        name: "init",
        sort: FlatSort::Child,
    },
];

pub static ASSIGNMENT_TARGET_PROPERTY_IDENTIFIER: [FlatField; 2] = [
    FlatField {
        name: "binding",
        sort: FlatSort::Child,
    },
    FlatField {
        name: "init",
        sort: FlatSort::Child,
    },
];

pub static ASSIGNMENT_TARGET_PROPERTY_PROPERTY: [FlatField; 3] = [
    FlatField {
        name: "name",
        sort: FlatSort::Child,
    },
    FlatField {
        name: "binding",
        sort: FlatSort::Child,
    },
    FlatField {
        name: "computed",
        sort: FlatSort::Flag,
    },
];

pub static ASSIGNMENT_TARGET_REST: [FlatField; 1] = [FlatField {
    name: "target",
    sort: FlatSort::Child,
}];
